//! The places of the reader: what it keeps of the tokens of a system text that it has read. `parsing` goes from place
//! to place.

use wh_system_parts::{RawMetas, RawName};
use wh_text::{RawBinder, RawTerm, RawTerms, RawType, RawTypes};

/// What an open term stands in.
#[derive(Drop)]
pub enum Frame {
    /// The body of an abstraction: its binder, the type of the binder's variable, and the offset of the abstraction.
    Body(RawBinder, Box<RawType>, u32),
    /// A parenthesis, with the spine so far before it.
    Paren(Option<RawTerm>),
    /// A bracket: the name before it, the arguments so far, and the spine so far before the name.
    Bracket(RawName, RawTerms, Option<RawTerm>),
}

/// A rule whose sides are read.
#[derive(Drop)]
pub struct OpenRule {
    /// The meta-variables of the rule.
    pub metas: RawMetas,
    /// The offset of the keyword `rule`.
    pub at: u32,
    /// The left side, once it is read.
    pub left: Option<RawTerm>,
    /// The open terms, the innermost last.
    pub frames: Vec<Frame>,
    /// The spine so far, where one is read; None where a term begins.
    pub before: Option<RawTerm>,
}

/// A rule whose meta-variables are read.
#[derive(Drop)]
pub struct OpenMetas {
    /// The meta-variables that are read so far.
    pub metas: RawMetas,
    /// The offset of the keyword `rule`.
    pub at: u32,
}

/// A meta-variable up to its name.
#[derive(Drop)]
pub struct OpenMeta {
    /// The rule, and the meta-variables before.
    pub rule: OpenMetas,
    /// The name.
    pub name: RawName,
}

/// What a type is for.
#[derive(Drop)]
pub enum Purpose {
    /// The type of this symbol.
    OfFun(RawName),
    /// A type in the brackets of a meta-variable, behind these types.
    InBrackets(OpenMeta, RawTypes),
    /// The type behind the brackets of a meta-variable, in which these types are.
    OfMeta(OpenMeta, RawTypes),
    /// The type of a binder, whose abstraction stands at this offset.
    OfBinder(Box<OpenRule>, RawBinder, u32),
    /// The type of a free variable of this number, which stands at this offset.
    OfVariable(Box<OpenRule>, u32, u32),
}

/// A type that is read.
#[derive(Drop)]
pub struct OpenType {
    /// The arguments of the type so far.
    pub args: RawTypes,
    /// The arguments so far of the types around it, one for each open parenthesis, the innermost last.
    pub outer: Vec<RawTypes>,
}

/// A place of the reader, named for what stands before it.
#[derive(Drop)]
pub enum Place {
    /// Between two declarations.
    Between,
    /// Behind `sort`.
    BehindSort,
    /// Behind the name of a sort.
    SortNamed(RawName),
    /// Behind `fun`.
    BehindFun,
    /// Behind the name of a symbol.
    FunNamed(RawName),
    /// Behind `rule`, whose offset this is.
    BehindRule(u32),
    /// Where a meta-variable begins.
    WantMeta(OpenMetas),
    /// Behind the name of a meta-variable.
    MetaNamed(OpenMeta),
    /// Behind the colon of a meta-variable.
    MetaColon(OpenMeta),
    /// Where a sort's name or a parenthesis of a type begins.
    WantAtype(Box<Purpose>, OpenType),
    /// Behind a sort's name or a closed parenthesis of a type.
    BehindAtype(Box<Purpose>, OpenType, Box<RawType>),
    /// Behind `\`, whose offset this is.
    BehindLambda(Box<OpenRule>, u32),
    /// Behind a binder.
    BinderNamed(Box<OpenRule>, RawBinder, u32),
    /// Behind the type of a binder.
    BinderTyped(Box<OpenRule>, RawBinder, Box<RawType>, u32),
    /// Where an atom may begin.
    WantAtom(Box<OpenRule>),
    /// Behind a name, before which a spine stands.
    BehindName(Box<OpenRule>, RawName),
    /// Behind `%` with this number, which stands at this offset.
    BehindPercent(Box<OpenRule>, u32, u32),
}

/// What the next token does.
#[derive(Drop)]
pub enum Step {
    /// The reader goes on at this place.
    To(Place),
    /// No system text has the token there.
    Failed,
    /// The token opens one level too many.
    TooMany,
}
