use form::ArgAction;

/// An argument's record as it comes in, with names held as `N` and ranges as `R`: names of any length, letters of 32 bits,
/// any settings bits.
#[derive(Clone, Copy)]
pub struct ArgRecord<N, R> {
    pub id: N,
    pub long: Option<N>,
    pub letter: Option<u32>,
    /// 65,535 is none
    pub index: Option<u16>,
    pub settings: u16,
    pub action: ArgAction,
    pub terminated: bool,
    pub range: Option<R>,
}

/// A subcommand's record as it comes in.
#[derive(Clone, Copy)]
pub struct SubcommandRecord<N> {
    pub name: N,
    pub long: Option<N>,
    pub letter: Option<u32>,
}

/// The record of an entry as it comes in; a group has its id only.
#[derive(Clone, Copy)]
pub enum Record<N, R> {
    Argument(ArgRecord<N, R>),
    Group(N),
    Subcommand(SubcommandRecord<N>),
}

/// An item as it comes in: a name, or a letter of 32 bits.
#[derive(Clone, Copy)]
pub enum Item<N> {
    Name(N),
    Letter(u32),
}
