//! Threads to be made by statements.

ghost use Rattle.std.specs.Prelude.{◌≡◌, true};
ghost use Rattle.loft_tree.specs.View.{creation_of as creation_in};
ghost use Rattle.loft_tree.specs.NamedView as view;
ghost use Rattle.loft_numbers.specs.Numbers.{creation_of};

use crate::expression::terms;
use crate::name::{module, scheduler};
use loft_base::Room;
use loft_scopes::{Scope, Table};
use loft_tree::{Creation, NamedCreation};

/// A thread to be made.
pub fn creation(room: &mut Room, table: &Table, scope: Scope, made: &Creation) -> NamedCreation
    ensures before { room.new.is_whole ≡ true → room.old.is_whole ≡ true }
    ensures value { room.new.is_whole ≡ true → view.creation_of result ≡ creation_of table.now scope (creation_in made.now) }
{
    NamedCreation {
        at: made.scheduler.at(),
        scheduler: scheduler(table, scope, &made.scheduler),
        module: module(table, scope, &made.called),
        arguments: terms(room, table, scope, made.arguments.as_slice()),
    }
}
