//! The instructions of the register machine.
//!
//! Each stands with what it does, as an equation of registers. `R[r]` is a register, `K[k]` a constant of the code, `N[n]` a
//! name of it, `F[f]` a function that it calls without a look-up and `G[g]` a global row. Register 0 is `self`. Behind it
//! stand the parameters and the other locals, which are open and hold their values. Behind these stands what is being
//! computed. A value that goes into `R[to]` joins the values that the frame holds until its unit ends, and the registers behind
//! `R[to]` go.
//!
//! Four lists stand beside the registers. `P` has the parts of array and dictionary literals, and `C` what was found to be called
//! before its arguments were computed; the values in them are held. `M` has the parts of a value under a match, the innermost
//! last, and `B` what was bound; a call drops both. A mismatch empties both, and skips: so many instructions behind this one are
//! passed.

use folder_meaning::ScriptType;
use variant_values::{BinaryOp, ClassTag, ElementTag, RunFault, UnaryOp};

/// A register of a frame.
#[derive(Clone, Copy)]
pub struct Reg(pub u8);

/// The registers of a call's arguments, so many from the first on.
#[derive(Clone, Copy)]
pub struct Args {
    pub first: Reg,
    pub count: u8,
}

/// An instruction. Bit i of `sure` says that argument i surely fits its parameter, so that it is not checked; `sure` in an
/// instruction that stores says so of the stored value.
#[derive(Clone, Copy)]
pub enum Instr {
    /// R[to] := null
    LoadNull {
        to: Reg,
    },
    /// R[to] := K[constant], its containers made anew
    LoadConst {
        to: Reg,
        constant: u32,
    },
    /// R[to] := G[row]
    LoadGlobal {
        to: Reg,
        row: u32,
    },
    /// R[to] := the callable of R[0] and N[name]
    LoadCallable {
        to: Reg,
        name: u32,
    },
    /// R[to] := the signal of R[0] and N[name]
    LoadSignal {
        to: Reg,
        name: u32,
    },
    /// R[to] := R[from]
    Move {
        to: Reg,
        from: Reg,
    },
    /// the open register R[local] := R[from]; not held, and the registers behind stay
    Store {
        local: Reg,
        from: Reg,
    },

    /// R[to] := the truth of R[from]
    ToBool {
        to: Reg,
        from: Reg,
    },
    /// R[to] := not R[from]
    Not {
        to: Reg,
        from: Reg,
    },
    /// R[to] := op R[from]
    Unary {
        op: UnaryOp,
        to: Reg,
        from: Reg,
    },
    /// R[to] := R[left] op R[right]
    Binary {
        op: BinaryOp,
        to: Reg,
        left: Reg,
        right: Reg,
    },

    /// R[to] := the field of R[0] with this place
    GetField {
        to: Reg,
        field: u32,
    },
    /// the field of R[0] with this place := R[from]
    SetField {
        field: u32,
        from: Reg,
        sure: bool,
    },
    /// R[to] := R[of].N[name]
    GetMember {
        to: Reg,
        of: Reg,
        name: u32,
    },
    /// R[to] := R[of].N[name].N[item], where N[name] may be an enum
    GetItem {
        to: Reg,
        of: Reg,
        name: u32,
        item: u32,
    },
    /// R[of].N[name] := R[from]
    SetMember {
        of: Reg,
        name: u32,
        from: Reg,
        sure: bool,
    },
    /// R[to] := R[of][R[index]]
    GetIndex {
        to: Reg,
        of: Reg,
        index: Reg,
    },
    /// R[of][R[index]] := R[from]
    SetIndex {
        of: Reg,
        index: Reg,
        from: Reg,
    },

    /// P := P, R[from]
    Push {
        from: Reg,
    },
    /// R[to] := an array of the last `count` of P, each checked against the element type; they leave P
    MakeArray {
        to: Reg,
        count: u32,
        element: Option<ElementTag>,
    },
    /// R[to] := a dictionary of the last `count` pairs of P, which leave P
    MakeDict {
        to: Reg,
        count: u32,
    },

    /// BadType unless R[of] fits the declared type
    Check {
        of: Reg,
        type_of: ScriptType,
    },
    /// R[to] := R[from] is the type
    IsType {
        to: Reg,
        from: Reg,
        type_of: ScriptType,
    },
    /// R[to] := R[from] as the type
    AsType {
        to: Reg,
        from: Reg,
        type_of: ScriptType,
    },

    /// C := C, what a call of R[of].N[name] calls; a field or a constant that is called is read here, and held
    FindCallee {
        of: Reg,
        name: u32,
    },
    /// R[to] := the last of C (args); it leaves C
    CallFound {
        to: Reg,
        args: Args,
        sure: u64,
    },
    /// R[to] := the method N[name] of R[0] (args)
    CallOwn {
        to: Reg,
        name: u32,
        args: Args,
        sure: u64,
    },
    /// R[to] := the native method N[name] of R[0] (args), whatever functions a script has
    CallNative {
        to: Reg,
        name: u32,
        args: Args,
    },
    /// R[to] := the value R[of] (args)
    CallValue {
        to: Reg,
        of: Reg,
        args: Args,
    },
    /// R[to] := the global function N[name] (args)
    CallGlobal {
        to: Reg,
        name: u32,
        args: Args,
    },
    /// R[to] := F[function] (args), on R[0] or, where the function is static, on no object
    CallFunction {
        to: Reg,
        function: u32,
        on_self: bool,
        args: Args,
        sure: u64,
    },
    /// R[to] := a new object of the class, its `_init` called with args
    New {
        to: Reg,
        class_tag: ClassTag,
        args: Args,
        sure: u64,
    },

    /// R[walk..walk + 2] := what a `for` over R[from] walks, and the unit ends with them as the last open registers
    WalkValue {
        walk: Reg,
        from: Reg,
    },
    /// R[walk..walk + 2] := the numbers of `range` (args), and the unit ends with them as the last open registers
    WalkRange {
        walk: Reg,
        args: Args,
    },
    /// takes a step; R[walk + 3] := what the walk gives next, as the last open register, not held; where it gives nothing, skip
    WalkNext {
        walk: Reg,
        skip: u32,
    },

    /// M := R[from], B := nothing
    MatchStart {
        from: Reg,
    },
    /// mismatch unless the last of M and R[other] are of one kind and equal
    MatchSame {
        other: Reg,
        skip: u32,
    },
    /// mismatch unless the last of M is an array of `count` items, or of so many or more
    MatchArray {
        count: u32,
        or_more: bool,
        skip: u32,
    },
    /// mismatch unless the last of M is a dictionary
    MatchDict {
        skip: u32,
    },
    /// mismatch unless the dictionary that is last of M has no key but those in the array K[keys]
    MatchKeys {
        keys: u32,
        skip: u32,
    },
    /// M := M, item `place` of the array that is last of M
    MatchItem {
        place: u32,
    },
    /// M := M, the value of the key K[key] in the dictionary that is last of M; mismatch where it has none
    MatchEntry {
        key: u32,
        skip: u32,
    },
    /// the last of M goes
    MatchDrop,
    /// B := B, the last of M
    MatchBind,

    /// takes a step, as a statement or a loop's test begins
    Step,
    /// a unit or a block ends: the first `locals` registers are open, and B in R[locals..bound] behind them; the others go,
    /// nothing is held, P, C and M are empty, and the heap is swept
    EndUnit {
        locals: u8,
        bound: u8,
    },
    /// skip
    Jump {
        skip: u32,
    },
    /// skip unless R[condition] is true
    JumpUnless {
        condition: Reg,
        skip: u32,
    },
    /// skip where R[local] is open, so that a default is computed only for an argument that was not given
    JumpIfOpen {
        local: Reg,
        skip: u32,
    },
    /// goes on `back` instructions before this one, at one that takes a step
    JumpBack {
        back: u32,
    },
    /// AssertFailed unless R[condition] is true
    Assert {
        condition: Reg,
    },
    /// the call ends with R[value]; a function whose instructions are over ends with null
    Return {
        value: Reg,
    },
    /// the fault
    Fail {
        fault: RunFault,
    },
}

/// An instruction, and the line of its unit.
#[derive(Clone, Copy)]
pub struct Op {
    pub line: u32,
    pub instr: Instr,
}
