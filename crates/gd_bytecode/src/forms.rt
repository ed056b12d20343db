//! What an instruction names.

ghost use Rattle.std.specs.Prelude.{◌≡◌};
ghost use Rattle.gd_bytecode.specs.Forms.{alone, form_of, going_back, step, stepping, with_constant, with_function, with_item, with_key, with_name, with_row, with_skip};

use crate::instructions::{Args, Instr, Reg};

/// The registers that an instruction names.
#[derive(Clone, Copy)]
pub enum Registers {
    None,
    One(Reg),
    Two(Reg, Reg),
    Three(Reg, Reg, Reg),
    /// A result, and arguments.
    Call(Reg, Args),
    /// A result, what is called or whose method is, and arguments.
    CallOf(Reg, Reg, Args),
    /// The three registers of a walk, and the register behind them.
    Walk(Reg),
    /// The three registers of a walk, and another.
    WalkFrom(Reg, Reg),
    /// The three registers of a walk, and arguments.
    WalkArgs(Reg, Args),
    /// The first so many that stay, and the first so many that may be open then.
    Open(u8, u8),
}

/// Where an instruction may lead but to the next one.
#[derive(Clone, Copy)]
pub enum Jump {
    /// Past so many instructions behind it.
    Skip(u32),
    /// So many instructions back.
    Back(u32),
}

/// All that an instruction names by number, and whether it takes a step.
#[derive(Clone, Copy)]
pub struct Form {
    pub registers: Registers,
    pub constant: Option<u32>,
    pub name: Option<u32>,
    /// A second name.
    pub item: Option<u32>,
    pub function: Option<u32>,
    pub row: Option<u32>,
    pub jump: Option<Jump>,
    pub takes_step: bool,
}

/// Registers, and nothing else.
fn alone(registers: Registers) -> Form
    ensures { result ≡ alone registers }
{
    Form {
        registers,
        constant: None,
        name: None,
        item: None,
        function: None,
        row: None,
        jump: None,
        takes_step: false,
    }
}

fn with_constant(registers: Registers, constant: u32) -> Form
    ensures { result ≡ with_constant registers constant }
{
    Form {
        constant: Some(constant),
        ..alone(registers)
    }
}

fn with_name(registers: Registers, name: u32) -> Form
    ensures { result ≡ with_name registers name }
{
    Form {
        name: Some(name),
        ..alone(registers)
    }
}

fn with_item(registers: Registers, name: u32, item: u32) -> Form
    ensures { result ≡ with_item registers name item }
{
    Form {
        item: Some(item),
        ..with_name(registers, name)
    }
}

fn with_function(registers: Registers, function: u32) -> Form
    ensures { result ≡ with_function registers function }
{
    Form {
        function: Some(function),
        ..alone(registers)
    }
}

fn with_row(registers: Registers, row: u32) -> Form
    ensures { result ≡ with_row registers row }
{
    Form {
        row: Some(row),
        ..alone(registers)
    }
}

fn with_skip(registers: Registers, skip: u32) -> Form
    ensures { result ≡ with_skip registers skip }
{
    Form {
        jump: Some(Jump::Skip(skip)),
        ..alone(registers)
    }
}

/// A jump by a constant.
fn with_key(key: u32, skip: u32) -> Form
    ensures { result ≡ with_key key skip }
{
    Form {
        constant: Some(key),
        ..with_skip(Registers::None, skip)
    }
}

/// A jump that takes a step.
fn stepping(registers: Registers, skip: u32) -> Form
    ensures { result ≡ stepping registers skip }
{
    Form {
        takes_step: true,
        ..with_skip(registers, skip)
    }
}

fn step() -> Form
    ensures { result ≡ step }
{
    Form {
        takes_step: true,
        ..alone(Registers::None)
    }
}

fn going_back(back: u32) -> Form
    ensures { result ≡ going_back back }
{
    Form {
        jump: Some(Jump::Back(back)),
        ..alone(Registers::None)
    }
}

impl Instr {
    pub fn form(&self) -> Form
        ensures { result ≡ form_of self.now }
    {
        match *self {
            Instr::LoadNull { to } => alone(Registers::One(to)),
            Instr::LoadConst { to, constant } => with_constant(Registers::One(to), constant),
            Instr::LoadGlobal { to, row } => with_row(Registers::One(to), row),
            Instr::LoadCallable { to, name } => with_name(Registers::One(to), name),
            Instr::LoadSignal { to, name } => with_name(Registers::One(to), name),
            Instr::Move { to, from } => alone(Registers::Two(to, from)),
            Instr::Store { local, from } => alone(Registers::Two(local, from)),
            Instr::ToBool { to, from } => alone(Registers::Two(to, from)),
            Instr::Not { to, from } => alone(Registers::Two(to, from)),
            Instr::Unary { to, from, .. } => alone(Registers::Two(to, from)),
            Instr::Binary {
                to,
                left,
                right,
                ..
            } => alone(Registers::Three(to, left, right)),
            Instr::GetField { to, .. } => alone(Registers::One(to)),
            Instr::SetField { from, .. } => alone(Registers::One(from)),
            Instr::GetMember { to, of, name } => with_name(Registers::Two(to, of), name),
            Instr::GetItem { to, of, name, item } => with_item(Registers::Two(to, of), name, item),
            Instr::SetMember { of, name, from, .. } => with_name(Registers::Two(of, from), name),
            Instr::GetIndex { to, of, index } => alone(Registers::Three(to, of, index)),
            Instr::SetIndex { of, index, from } => alone(Registers::Three(of, index, from)),
            Instr::Push { from } => alone(Registers::One(from)),
            Instr::MakeArray { to, .. } => alone(Registers::One(to)),
            Instr::MakeDict { to, .. } => alone(Registers::One(to)),
            Instr::Check { of, .. } => alone(Registers::One(of)),
            Instr::IsType { to, from, .. } => alone(Registers::Two(to, from)),
            Instr::AsType { to, from, .. } => alone(Registers::Two(to, from)),
            Instr::FindCallee { of, name } => with_name(Registers::One(of), name),
            Instr::CallFound { to, args, .. } => alone(Registers::Call(to, args)),
            Instr::CallOwn { to, name, args, .. } => with_name(Registers::Call(to, args), name),
            Instr::CallNative { to, name, args } => with_name(Registers::Call(to, args), name),
            Instr::CallValue { to, of, args } => alone(Registers::CallOf(to, of, args)),
            Instr::CallGlobal { to, name, args } => with_name(Registers::Call(to, args), name),
            Instr::CallFunction {
                to,
                function,
                args,
                ..
            } => with_function(Registers::Call(to, args), function),
            Instr::New { to, args, .. } => alone(Registers::Call(to, args)),
            Instr::WalkValue { walk, from } => alone(Registers::WalkFrom(walk, from)),
            Instr::WalkRange { walk, args } => alone(Registers::WalkArgs(walk, args)),
            Instr::WalkNext { walk, skip } => stepping(Registers::Walk(walk), skip),
            Instr::MatchStart { from } => alone(Registers::One(from)),
            Instr::MatchSame { other, skip } => with_skip(Registers::One(other), skip),
            Instr::MatchArray { skip, .. } => with_skip(Registers::None, skip),
            Instr::MatchDict { skip } => with_skip(Registers::None, skip),
            Instr::MatchKeys { keys, skip } => with_key(keys, skip),
            Instr::MatchItem { .. } => alone(Registers::None),
            Instr::MatchEntry { key, skip } => with_key(key, skip),
            Instr::MatchDrop => alone(Registers::None),
            Instr::MatchBind => alone(Registers::None),
            Instr::Step => step(),
            Instr::EndUnit { locals, bound } => alone(Registers::Open(locals, bound)),
            Instr::Jump { skip } => with_skip(Registers::None, skip),
            Instr::JumpUnless { condition, skip } => with_skip(Registers::One(condition), skip),
            Instr::JumpIfOpen { local, skip } => with_skip(Registers::One(local), skip),
            Instr::JumpBack { back } => going_back(back),
            Instr::Assert { condition } => alone(Registers::One(condition)),
            Instr::Return { value } => alone(Registers::One(value)),
            Instr::Fail { .. } => alone(Registers::None),
        }
    }
}
