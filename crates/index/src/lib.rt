// Typed indexes, as the source's: an index of one kind does not stand for one of another.
#![tactic(auto)]

#[derive(Clone, Copy)]
pub struct ModuleIdx(pub usize);

#[derive(Clone, Copy)]
pub struct SymbolIdx(pub usize);

// A statement among those of its module.
#[derive(Clone, Copy)]
pub struct StmtIdx(pub usize);

// An import record among those of its module.
#[derive(Clone, Copy)]
pub struct ImportRecordIdx(pub usize);

#[derive(Clone, Copy)]
pub struct EntryIdx(pub usize);
