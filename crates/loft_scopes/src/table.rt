//! The table of what a program declares.

ghost use Rattle.std.specs.Prelude.{◌≡◌, ◌++◌, ◌∷◌, [], map, IfOk, OnOk};
ghost use Rattle.std.specs.List.{list_any, position_or_len};
ghost use Rattle.std.specs.Option.{option_map};
ghost use Rattle.loft_scopes.specs.Tables.{IndexesFirsts, NotesFirst, declared_of, is_sought, sort_of};
ghost use Rattle.loft_scopes.specs.Faults.{is_scheduler};

use crate::scope::Scope;
use indexmap::IndexMap;
use loft_base::NoMemory;
use loft_tree::{Ident, Kind, Variable};
use std::alloc::Global;
use std::marker::Model;

/// What a name is declared as (docs/LANGUAGE.md, "Names").
#[derive(Clone, Copy)]
pub enum Sort<'a> {
    /// A scheduler.
    Scheduler,
    /// An event.
    Event,
    /// A shared variable.
    Shared,
    /// A module with these parameters.
    Module(&'a [Variable]),
    /// The thread of a start.
    Start,
    /// An outside client.
    Client,
    /// A parameter or a local variable of this kind.
    Variable(Kind),
}

impl<'a> Sort<'a> {
    ghost use Rattle.loft_scopes.specs.Faults.{is_scheduler, is_event, is_start, kind_in};
    ghost use Rattle.loft_scopes.specs.Tables.{sort_of};

    /// Whether it is a scheduler.
    pub fn is_scheduler(self) -> bool
        ensures { result ≡ is_scheduler (sort_of self.entry) }
    {
        matches!(self, Sort::Scheduler)
    }

    /// Whether it is an event.
    pub fn is_event(self) -> bool
        ensures { result ≡ is_event (sort_of self.entry) }
    {
        matches!(self, Sort::Event)
    }

    /// Whether it is a start.
    pub fn is_start(self) -> bool
        ensures { result ≡ is_start (sort_of self.entry) }
    {
        matches!(self, Sort::Start)
    }

    /// The kind of what has a value: a variable of a module, or a shared one.
    pub fn kind(self) -> Option<Kind>
        ensures { result ≡ kind_in (sort_of self.entry) }
    {
        match self {
            Sort::Shared => Some(Kind::Int),
            Sort::Variable(kind) => Some(kind),
            _ => None,
        }
    }
}

/// A declaration. The declarations of a sort are numbered from 0, and so are the parameters and
/// local variables of a module, together (docs/LANGUAGE.md, "Numbers of names").
#[derive(Clone, Copy)]
pub struct Entry<'a> {
    /// Its name.
    pub name: &'a Ident,
    /// Where it can be seen.
    pub scope: Scope,
    /// What it declares.
    pub sort: Sort<'a>,
    /// Its number.
    pub number: u32,
}

/// Which declarations a look-up finds.
#[derive(Clone, Copy, PartialEq, Eq, Hash)]
enum Reach {
    /// All.
    Anywhere,
    /// Those that are seen exactly there.
    In(Scope),
}

/// The declarations of a program in the order of the text (docs/LANGUAGE.md, "Names").
#[derive(Drop)]
pub struct Table<'a> {
    entries: Vec<Entry<'a>>,
    firsts: IndexMap<(Reach, &'a [u8]), usize>,
}

impl<'a> Model for Table<'a> {
    ghost use Rattle.std.specs.Prelude.{List, map};
    ghost use Rattle.loft_scopes.specs.Scopes.{Declared};

    ghost Value = { List Declared };

    ghost use Rattle.loft_scopes.specs.Tables.{declared_of, IndexesFirsts};

    ghost view = { λ t. map declared_of t.entries.items };

    ghost invariant = { λ t. IndexesFirsts t.firsts (map declared_of t.entries.items) };
}

/// Notes where a key is declared, if it isn't declared yet.
fn note_first<'a>(
    firsts: &mut IndexMap<(Reach, &'a [u8]), usize>,
    key: (Reach, &'a [u8]),
    position: usize,
) -> Result<(), NoMemory>
    ensures { OnOk result (NotesFirst firsts.old firsts.new key.entry position) }
{
    if !firsts.contains_key(&key) {
        firsts.insert(key, position)?;
    }
    Ok(())
}

/// Adds a declaration to others, and notes where its name is declared.
fn add<'a>(
    entries: &mut Vec<Entry<'a>>,
    firsts: &mut IndexMap<(Reach, &'a [u8]), usize>,
    declaration: Entry<'a>,
) -> Result<(), NoMemory>
    requires { IndexesFirsts firsts.old (map declared_of entries.old.items) }
    ensures entries { OnOk result (entries.new.items ≡ entries.old.items ++ declaration.entry ∷ []) }
    ensures firsts { OnOk result (IndexesFirsts firsts.new (map declared_of entries.new.items)) }
{
    let name = declaration.name.text();
    let position = entries.len();
    note_first(firsts, (Reach::Anywhere, name), position)?;
    note_first(firsts, (Reach::In(declaration.scope), name), position)?;
    entries.push(declaration)?;
    Ok(())
}

/// Whether one of these declarations is a scheduler.
fn any_scheduler(declarations: &[Entry]) -> bool
    ensures { result ≡ list_any (λ one. is_scheduler (sort_of one.sort)) declarations.now }
{
    declarations
        .iter()
        .any(|declaration| declaration.sort.is_scheduler())
}

impl<'a> Table<'a> {
    ghost use Rattle.loft_scopes.specs.Scopes.{meaning, earlier};
    ghost use Rattle.loft_scopes.specs.Faults.{declares_scheduler};
    ghost use Rattle.loft_scopes.specs.Tables.{declared_of};

    /// The table without declarations; it allocates nothing.
    pub fn new(alloc: Global) -> Table<'a>
        ensures { result ≡ [] }
    {
        Table {
            entries: Vec::new(alloc),
            firsts: IndexMap::new(alloc),
        }
    }

    /// The first declaration of a name among those within reach; the number of all, if there is none.
    fn first(&self, reach: Reach, name: &Ident) -> usize
        ensures { result ≡ position_or_len (is_sought reach name.now.text) self.now }
    {
        let position = self.firsts.get(&(reach, name.text())).copied();
        position.unwrap_or(self.entries.len())
    }

    /// What a name means where it is used.
    pub fn meaning(&self, scope: Scope, name: &Ident) -> Option<Entry<'a>>
        ensures { option_map declared_of result ≡ meaning self.now scope name.now }
    {
        let everywhere = self.first(Reach::In(Scope::Everywhere), name);
        let here = self.first(Reach::In(scope), name);
        self.entries.get(everywhere.min(here)).copied()
    }

    /// The first declaration of the same name that can be seen together with this one.
    pub fn earlier(&self, declaration: &Entry<'a>) -> Option<Entry<'a>>
        ensures { option_map declared_of result ≡ earlier self.now (declared_of declaration.now) }
    {
        match declaration.scope {
            Scope::Within(_) => self.meaning(declaration.scope, declaration.name),
            Scope::Everywhere => {
                let position = self.first(Reach::Anywhere, declaration.name);
                self.entries.get(position).copied()
            }
        }
    }

    /// Whether a scheduler is declared.
    pub fn has_scheduler(&self) -> bool
        ensures { result ≡ list_any declares_scheduler self.now }
    {
        any_scheduler(&self.entries)
    }

    /// The table with one more declaration.
    pub fn with(self, declaration: Entry<'a>) -> Result<Table<'a>, NoMemory>
        ensures { IfOk result (λ table. table ≡ self.entry ++ declared_of declaration.entry ∷ []) }
    {
        let Table {
            mut entries,
            mut firsts,
        } = self;
        add(&mut entries, &mut firsts, declaration)?;
        Ok(Table { entries, firsts })
    }
}
