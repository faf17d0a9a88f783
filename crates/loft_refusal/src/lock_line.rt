//! The line of a text with locks that stands for no program (docs/COMMANDS.md, "Fault lines").

ghost use Rattle.std.specs.Prelude.{◌≡◌, [], ◌∷◌, ◌++◌, IfOk};
ghost use Rattle.loft_refusal.specs.Refusals.{lock_in_module, lock_line};

use crate::fault_line::{lexical_line, link_line, module_name, name_line, text_line};
use loft_base::{ModuleId, NoMemory, Out};
use loft_mutex::MutexError;
use loft_tree::{Name, Names};
use std::alloc::Global;

/// A line of a lock and a module, each after its words, with its line feed.
fn lock_in_module(
    alloc: Global,
    modules: &Names,
    front: &str,
    lock: &Name,
    between: &str,
    module: ModuleId,
) -> Result<Vec<u8>, NoMemory>
    ensures { IfOk result (λ line. line.items ≡ lock_in_module modules.now front.now lock.now between.now «module» ++ 10 ∷ []) }
{
    let mut line = Out::new(alloc);
    line.put(front.as_bytes());
    line.put(lock.as_slice());
    line.put(between.as_bytes());
    line.put(module_name(modules, module));
    line.put(b"\n");
    line.done()
}

/// The line of a text with locks that stands for no program, with its line feed. `NoMemory` where it is out of memory, or the
/// fault is that.
pub fn lock_line(alloc: Global, names: &Names, fault: &MutexError) -> Result<Vec<u8>, NoMemory>
    ensures { IfOk result (λ line. line.items ≡ lock_line names.now fault.now ++ 10 ∷ []) }
{
    let line = match fault {
        MutexError::Place(fault) => return link_line(alloc, names, fault),
        MutexError::Pair { module, lock } => {
            return lock_in_module(alloc, names, "locks: pair of ", lock, " in ", *module);
        }
        MutexError::Leaves { module, lock } => {
            return lock_in_module(alloc, names, "locks: ", lock, " left in ", *module);
        }
        MutexError::Lex(fault) => lexical_line(alloc, fault)?,
        MutexError::Parse(fault) => text_line(alloc, fault)?,
        MutexError::Names(fault) => name_line(alloc, fault)?,
        MutexError::LongLock(at) => format!(in alloc; "locks: long name at {at}\n")?,
        MutexError::Reserved(at) => format!(in alloc; "locks: name at {at}\n")?,
        MutexError::TooLong => String::from_str(alloc, "source: too long\n")?,
        MutexError::NoMemory => return Err(NoMemory),
    };
    Ok(line.into_bytes())
}
