//! A lock may be shared by threads, and a pass may go to another, where the value may.
use crate::lock::{Pass, TurnLock};
use crate::told::Told;

fn may_cross<X: Send>(x: X) -> X {
    x
}

fn may_be_shared<X: Sync>(x: &X) -> &X {
    x
}

fn pass_crosses<T: Told + Send>(pass: Pass<T>) -> Pass<T> {
    may_cross(pass)
}

fn lock_crosses<T: Told + Send>(lock: TurnLock<T>) -> TurnLock<T> {
    may_cross(lock)
}

fn lock_is_shared<T: Told + Send>(lock: &TurnLock<T>) -> &TurnLock<T> {
    may_be_shared(lock)
}
