// The value of an expression. A tree may be as deep as it likes: no call goes down it.

use crate::classes::class_of;
use crate::methods::unary_op;
use crate::refusal::{BAD_CASE, Refusal};
use crate::world::World;
use gd_syntax::{Expr, Literal, TreeOp, TreePrefix};
use std::alloc::{AllocError, Global};
use variant_values::operators::unary;
use variant_values::texts::Str;
use variant_values::values::Value;

/// What is still to be done, in order. What has operands takes them from the values.
#[derive(Clone, Copy)]
enum Work<'a> {
    Evaluate(&'a Expr),
    Array(usize),
    Dict(usize),
    Index,
    Prefix(TreePrefix),
    Not,
    Binary(TreeOp),
    Function(&'a str, usize),
    Method(&'a str, usize),
}

/// Work and values, the next and the last of which stand at the end.
#[derive(Drop)]
struct Draft<'a> {
    alloc: Global,
    work: Vec<Work<'a>>,
    values: Vec<Value>,
}

fn literal_value(alloc: Global, literal: &Literal) -> Result<Value, AllocError> {
    match literal {
        Literal::Null => Ok(Value::Null),
        Literal::Bool(b) => Ok(Value::Bool(*b)),
        Literal::Int(n) => Ok(Value::Int(*n)),
        Literal::Text(text) => Ok(Value::Str(Str::new(alloc, text.as_str())?)),
    }
}

/// The value of a name, or the class of the name.
fn value_of_name(world: &World, name: &str) -> Result<Value, Refusal> {
    match world.named(name)? {
        Some(value) => Ok(value),
        None => Ok(Value::Class(class_of(name).ok_or(BAD_CASE)?)),
    }
}

impl<'a> Draft<'a> {
    /// Puts work before what is left.
    fn put(&mut self, work: &[Work<'a>]) -> Result<(), Refusal> {
        for one in work.iter().rev() {
            self.work.push(*one)?;
        }
        Ok(())
    }

    fn put_all(&mut self, trees: &'a [Expr]) -> Result<(), Refusal> {
        for tree in trees.iter().rev() {
            self.work.push(Work::Evaluate(tree))?;
        }
        Ok(())
    }

    fn put_entries(&mut self, entries: &'a [(Expr, Expr)]) -> Result<(), Refusal> {
        for (key, value) in entries.iter().rev() {
            self.put(&[Work::Evaluate(key), Work::Evaluate(value)])?;
        }
        Ok(())
    }

    fn put_call(&mut self, callee: &'a Expr, args: &'a [Expr]) -> Result<(), Refusal> {
        match callee {
            Expr::Member(_, of, name) => {
                self.put(&[Work::Method(name.as_str(), args.len())])?;
                self.put_all(args)?;
                self.put(&[Work::Evaluate(of.get())])
            }
            Expr::Name(_, name) => {
                self.put(&[Work::Function(name.as_str(), args.len())])?;
                self.put_all(args)
            }
            _ => Err(BAD_CASE),
        }
    }

    fn push(&mut self, value: Value) -> Result<(), Refusal> {
        self.values.push(value)?;
        Ok(())
    }

    fn pop(&mut self) -> Result<Value, Refusal> {
        self.values.pop().ok_or(BAD_CASE)
    }

    /// The last values.
    fn pop_some(&mut self, count: usize) -> Result<Vec<Value>, Refusal> {
        match self.values.len().checked_sub(count) {
            Some(at) => Ok(self.values.split_off(at)?),
            None => Err(BAD_CASE),
        }
    }

    fn begin(&mut self, world: &World, tree: &'a Expr) -> Result<(), Refusal> {
        use Work::Evaluate;
        match tree {
            Expr::Literal(_, literal) => self.push(literal_value(self.alloc, literal)?),
            Expr::Name(_, name) => self.push(value_of_name(world, name.as_str())?),
            Expr::Load(_, path) => {
                let path = Str::new(self.alloc, path.text.as_str())?;
                self.push(Value::Scene(0, path))
            }
            Expr::Paren(_, a) => self.put(&[Evaluate(a.get())]),
            Expr::Array(_, items) => {
                self.put(&[Work::Array(items.len())])?;
                self.put_all(items.as_slice())
            }
            Expr::Dict(_, entries) => {
                self.put(&[Work::Dict(entries.len())])?;
                self.put_entries(entries.as_slice())
            }
            Expr::Index(_, a, i) => self.put(&[Evaluate(a.get()), Evaluate(i.get()), Work::Index]),
            Expr::Call(_, callee, args) => self.put_call(callee.get(), args.as_slice()),
            Expr::Prefix(_, op, a) => self.put(&[Evaluate(a.get()), Work::Prefix(*op)]),
            Expr::Not(_, a) => self.put(&[Evaluate(a.get()), Work::Not]),
            Expr::Binary {
                op,
                left,
                right,
                ..
            } => self.put(&[
                Evaluate(left.get()),
                Evaluate(right.get()),
                Work::Binary(*op),
            ]),
            _ => Err(BAD_CASE),
        }
    }

    /// A new dictionary of keys and values in turn.
    fn dict(&mut self, world: &mut World, count: usize) -> Result<(), Refusal> {
        let mut parts = self.pop_some(count.checked_mul(2).ok_or(BAD_CASE)?)?;
        let dict = world.dict()?;
        parts.reverse();
        for _ in 0..count {
            let key = parts.pop().ok_or(BAD_CASE)?;
            let value = parts.pop().ok_or(BAD_CASE)?;
            world.put(&dict, &key, value)?;
        }
        self.push(dict)
    }

    /// Does one piece of work.
    fn run(&mut self, world: &mut World, work: Work<'a>) -> Result<(), Refusal> {
        let value = match work {
            Work::Evaluate(tree) => return self.begin(world, tree),
            Work::Dict(count) => return self.dict(world, count),
            Work::Array(count) => world.array(self.pop_some(count)?, None)?,
            Work::Index => {
                let index = self.pop()?;
                world.item(&self.pop()?, &index)?
            }
            Work::Prefix(op) => unary(unary_op(op), &self.pop()?)?,
            Work::Not => world.denial(&self.pop()?)?,
            Work::Binary(op) => {
                let right = self.pop()?;
                world.binary(op, &self.pop()?, &right)?
            }
            Work::Function(name, count) => {
                let args = self.pop_some(count)?;
                world.function(name, args.as_slice())?
            }
            Work::Method(name, count) => {
                let args = self.pop_some(count)?;
                world.method(self.pop()?, name, args.as_slice())?
            }
        };
        self.push(value)
    }
}

/// The value of an expression.
pub fn value_of(alloc: Global, world: &mut World, tree: &Expr) -> Result<Value, Refusal> {
    let mut draft = Draft {
        alloc,
        work: Vec::new(alloc),
        values: Vec::new(alloc),
    };
    draft.put(&[Work::Evaluate(tree)])?;
    for _ in 0..u64::MAX {
        let Some(work) = draft.work.pop() else {
            break;
        };
        draft.run(world, work)?;
    }
    draft.pop()
}
