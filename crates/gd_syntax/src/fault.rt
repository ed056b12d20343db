// Places in a file, and what may be wrong with it.
ghost use Rattle.std.specs.Prelude.{◌≡◌};
ghost use Rattle.gd_syntax.specs.declared.fault.SolveError.TheVariants.{NoMemory};

use std::alloc::{AllocError, AllocFailed};

/// A place in a file. Lines and columns count from 1, columns in characters; 0:0 is the whole file.
#[derive(Clone, Copy, Debug, PartialEq, Eq)]
pub struct Place {
    pub line: u32,
    pub column: u32,
}

impl Place {
    pub const WHOLE_FILE: Place = Place { line: 0, column: 0 };
}

/// What is wrong with a file. At one place the earlier kind counts.
#[derive(Clone, Copy, Debug, PartialEq, Eq)]
pub enum FaultKind {
    /// The file's bytes could not be read.
    Unreadable,
    /// The file is no UTF-8.
    BadBytes,
    /// No token is spelled so.
    BadToken,
    /// A line is indented by tabs where the file has blanks, or the other way round.
    MixedIndent,
    /// A line's depth is that of no open block.
    BadIndent,
    /// A bracket or a string is open at the file's end.
    Unclosed,
    /// A whole number is above 2^63 - 1.
    NumberTooLarge,
    /// The token may not come here.
    Syntax,
    /// Too many forms, blocks or classes are open at one place.
    NestTooDeep,
    /// A class, a member or a parameter is one too many.
    TooMany,
    /// A scene or the project file has another form than its heading, property or line may have.
    SceneSyntax,
    /// A form of the language, or of a scene, that is not taken.
    Unsupported(Form),
    /// A base, `preload` or `load` names a file that the project lacks.
    NoSuchFile,
    /// No class has the name of a base.
    NoSuchClass,
    /// A base is no class of a script.
    NotAClass,
    /// Two files have the global name, or it is that of a native class or of a type.
    GlobalNameTaken,
    /// A class is reached from itself through bases.
    CyclicInheritance,
    /// A scene is reached from itself through instances.
    CyclicScene,
    /// A path or an id of a scene that is not there, or is not of its type.
    NoSuchResource,
    /// A class declares a name twice.
    DuplicateMember,
    /// A name is that of a member of an ancestor, and not a function over a function.
    HidesMember,
    /// A type names none.
    UnknownType,
    /// A constant names itself through constants.
    CyclicConstant,
    /// An expression that has to be constant is none.
    NotConstant,
    /// An operator or a dictionary of a constant expression faults.
    ConstantFault,
    /// A type that is inferred needs itself.
    CyclicInference,
    /// A function does not fit the one that it overrides.
    SignatureMismatch,
    /// Two siblings have one name.
    DuplicateNode,
    /// No node has the path of a parent or of a connection.
    NoSuchNode,
    /// A name means nothing.
    UnknownName,
    /// A value, or an operator's operand, is of a type that does not fit.
    TypeClash,
    /// A call has a wrong number or kind of arguments, or calls what is no function.
    BadCall,
    /// A type has no method of the name.
    NoMethod,
    /// A call without a value stands as one.
    VoidValue,
    /// A function with a type may end without a value.
    MissingReturn,
    /// `break` or `continue` stands outside loops.
    LoopWord,
    /// The target of an assignment is no variable.
    AssignToConst,
    /// A local has a name that stands in an open block.
    DuplicateLocal,
    /// A static function names what belongs to an object.
    SelfInStatic,
    /// A node of a scene has a property that it cannot take.
    BadProperty,
    /// A connection names a signal that its node lacks.
    NoSuchSignal,
    /// A connection names a method that its node lacks.
    NoSuchMethod,
    /// A function needs more registers than there are.
    TooManyRegisters,
    /// A form of the language that is not built yet.
    Unbuilt,
}

/// A form of the language that scripts may not have, or one that scenes may not have.
#[derive(Clone, Copy, Debug, PartialEq, Eq)]
pub enum Form {
    Float,
    Power,
    Lambda,
    Await,
    Property,
    StaticVariable,
    StringName,
    NodePath,
    RawString,
    TypedDictionary,
    TypedArray,
    Typeof,
    Variadic,
    When,
    Breakpoint,
    UniqueNode,
    Annotation,
    UidPath,
    ComputedLoad,
    EnumValue,
    ResourceType,
    InheritedScene,
    EditableChildren,
    NodeType,
    ConnectionOption,
    SubResource,
}

impl FaultKind {
    ghost use Rattle.gd_syntax.specs.Faults.{kind_text};

    /// The kind's name in reports.
    pub fn as_str(&self) -> &'static str
        ensures { result.now ≡ kind_text self.now }
    {
        match self {
            FaultKind::Unreadable => "Unreadable",
            FaultKind::BadBytes => "BadBytes",
            FaultKind::BadToken => "BadToken",
            FaultKind::MixedIndent => "MixedIndent",
            FaultKind::BadIndent => "BadIndent",
            FaultKind::Unclosed => "Unclosed",
            FaultKind::NumberTooLarge => "NumberTooLarge",
            FaultKind::Syntax => "Syntax",
            FaultKind::NestTooDeep => "NestTooDeep",
            FaultKind::TooMany => "TooMany",
            FaultKind::SceneSyntax => "SceneSyntax",
            FaultKind::Unsupported(form) => form.as_str(),
            FaultKind::NoSuchFile => "NoSuchFile",
            FaultKind::NoSuchClass => "NoSuchClass",
            FaultKind::NotAClass => "NotAClass",
            FaultKind::GlobalNameTaken => "GlobalNameTaken",
            FaultKind::CyclicInheritance => "CyclicInheritance",
            FaultKind::CyclicScene => "CyclicScene",
            FaultKind::NoSuchResource => "NoSuchResource",
            FaultKind::DuplicateMember => "DuplicateMember",
            FaultKind::HidesMember => "HidesMember",
            FaultKind::UnknownType => "UnknownType",
            FaultKind::CyclicConstant => "CyclicConstant",
            FaultKind::NotConstant => "NotConstant",
            FaultKind::ConstantFault => "ConstantFault",
            FaultKind::CyclicInference => "CyclicInference",
            FaultKind::SignatureMismatch => "SignatureMismatch",
            FaultKind::DuplicateNode => "DuplicateNode",
            FaultKind::NoSuchNode => "NoSuchNode",
            FaultKind::UnknownName => "UnknownName",
            FaultKind::TypeClash => "TypeClash",
            FaultKind::BadCall => "BadCall",
            FaultKind::NoMethod => "NoMethod",
            FaultKind::VoidValue => "VoidValue",
            FaultKind::MissingReturn => "MissingReturn",
            FaultKind::LoopWord => "LoopWord",
            FaultKind::AssignToConst => "AssignToConst",
            FaultKind::DuplicateLocal => "DuplicateLocal",
            FaultKind::SelfInStatic => "SelfInStatic",
            FaultKind::BadProperty => "BadProperty",
            FaultKind::NoSuchSignal => "NoSuchSignal",
            FaultKind::NoSuchMethod => "NoSuchMethod",
            FaultKind::TooManyRegisters => "TooManyRegisters",
            FaultKind::Unbuilt => "Unbuilt",
        }
    }
}

impl Form {
    ghost use Rattle.gd_syntax.specs.Faults.{form_text};

    /// The name in reports of a form that is refused.
    pub fn as_str(&self) -> &'static str
        ensures { result.now ≡ form_text self.now }
    {
        match self {
            Form::Float => "Unsupported(float)",
            Form::Power => "Unsupported(power)",
            Form::Lambda => "Unsupported(lambda)",
            Form::Await => "Unsupported(await)",
            Form::Property => "Unsupported(property)",
            Form::StaticVariable => "Unsupported(static variable)",
            Form::StringName => "Unsupported(string name)",
            Form::NodePath => "Unsupported(node path)",
            Form::RawString => "Unsupported(raw string)",
            Form::TypedDictionary => "Unsupported(typed dictionary)",
            Form::TypedArray => "Unsupported(typed array)",
            Form::Typeof => "Unsupported(typeof)",
            Form::Variadic => "Unsupported(variadic)",
            Form::When => "Unsupported(when)",
            Form::Breakpoint => "Unsupported(breakpoint)",
            Form::UniqueNode => "Unsupported(unique node)",
            Form::Annotation => "Unsupported(annotation)",
            Form::UidPath => "Unsupported(uid path)",
            Form::ComputedLoad => "Unsupported(computed load)",
            Form::EnumValue => "Unsupported(enum value)",
            Form::ResourceType => "Unsupported(resource type)",
            Form::InheritedScene => "Unsupported(inherited scene)",
            Form::EditableChildren => "Unsupported(editable children)",
            Form::NodeType => "Unsupported(node type)",
            Form::ConnectionOption => "Unsupported(connection option)",
            Form::SubResource => "Unsupported(sub resource)",
        }
    }
}

/// A fault of a file, found before anything runs.
#[derive(Clone, Copy, Debug, PartialEq, Eq)]
pub struct LoadFault {
    pub kind: FaultKind,
    pub place: Place,
}

/// Why a stage of loading gave no result.
#[derive(Clone, Copy, Debug, PartialEq, Eq)]
pub enum SolveError {
    Fault(LoadFault),
    NoMemory,
}

impl From<AllocError> for SolveError {
    ghost from_gives = { λ _ e. e ≡ NoMemory };

    fn from(_: AllocError) -> Self {
        SolveError::NoMemory
    }
}

impl<T: Drop> From<AllocFailed<T>> for SolveError {
    ghost from_gives = { λ _ e. e ≡ NoMemory };

    fn from(_: AllocFailed<T>) -> Self {
        SolveError::NoMemory
    }
}
