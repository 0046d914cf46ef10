ghost use Rattle.std.specs.Prelude.{◌≡◌, ◌<◌, ◌≤◌, ℕ, List, MatchOption, MatchResult, decimal, length};
ghost use Rattle.mr_field.specs.Order.{IsOrder};
ghost use Rattle.mr_minor.specs.declared.masks.TheConstants.{BITS};
ghost use Rattle.mr_text.specs.declared.TheConstants.{NUMBERS};
ghost use Rattle.matrep.specs.Words.{texts, IsValue, Gives, HasKey, AreOperands, HasNeeded, GivesNumber, GivesClasses, GivesElements, IsListText, OffendsAfter};
ghost use Rattle.matrep.specs.declared.names.Key.{Key as KeyValue};
ghost use Rattle.matrep.specs.declared.names.Name.{Name as NameValue};
ghost use Rattle.matrep.specs.Private.Operands.{AreRight, AreMeant};

use crate::names::{Key, Name};
use crate::operands::{first_other, value_of};
use crate::values::{elements_in, field_in, number_in, orbits_in, order_in};
use crate::words::Command;
use crate::{DEFAULT_NODES, PLANE_ORDER, WORKERS};
use mr_exchange::{NODES, SPLIT};

/// The command of this name that the operands mean, or the first place among them that offends.
pub fn read_operands(name: Name, operands: &[String]) -> Result<Command, u32>
    ensures { MatchResult result
        (AreMeant name (texts operands.now))
        (λ k. (k < 9) × OffendsAfter name (texts operands.now) k) }
{
    match first_other(name, operands) {
        Some(place) => Err(place),
        None => match command_of(name, operands) {
            Some(command) => Ok(command),
            None => Err(operands.len() as u32),
        },
    }
}

// The command of this name, if each key that it needs is given.
fn command_of(name: Name, operands: &[String]) -> Option<Command>
    requires { AreOperands name (texts operands.now) (length (texts operands.now)) }
    ensures { MatchOption result (¬ (HasNeeded name (texts operands.now))) (AreMeant name (texts operands.now)) }
{
    match name {
        Name::Solve => solve_of(operands),
        Name::Check => check_of(operands),
        Name::Confirm => confirm_of(operands),
        Name::Matroid => matroid_of(operands),
        Name::Dual => Some(Command::Dual),
        Name::Minor => minor_of(operands),
        Name::Plane => plane_of(operands),
    }
}

// The solve that the operands mean, if they name a field.
fn solve_of(operands: &[String]) -> Option<Command>
    requires { AreOperands NameValue.Solve (texts operands.now) (length (texts operands.now)) }
    ensures { MatchOption result (¬ (HasNeeded NameValue.Solve (texts operands.now))) (AreMeant NameValue.Solve (texts operands.now)) }
{
    let Some(q) = field_of(operands) else {
        return None;
    };
    let workers = number_of(operands, Key::Workers, 1, WORKERS, 1);
    let nodes = number_of(operands, Key::Nodes, 1, NODES, DEFAULT_NODES);
    let split = number_of(operands, Key::Split, 0, SPLIT, 0);
    let orbits = orbits_of(operands);
    Some(Command::Solve {
        q,
        workers,
        nodes,
        split,
        orbits,
    })
}

// The check of a log that the operands mean, if they name a field.
fn check_of(operands: &[String]) -> Option<Command>
    requires { AreOperands NameValue.Check (texts operands.now) (length (texts operands.now)) }
    ensures { MatchOption result (¬ (HasNeeded NameValue.Check (texts operands.now))) (AreMeant NameValue.Check (texts operands.now)) }
{
    match field_of(operands) {
        None => None,
        Some(q) => Some(Command::Check { q }),
    }
}

// The confirmation of a matrix that they mean, if they name a field.
fn confirm_of(operands: &[String]) -> Option<Command>
    requires { AreOperands NameValue.Confirm (texts operands.now) (length (texts operands.now)) }
    ensures { MatchOption result (¬ (HasNeeded NameValue.Confirm (texts operands.now))) (AreMeant NameValue.Confirm (texts operands.now)) }
{
    match field_of(operands) {
        None => None,
        Some(q) => Some(Command::Confirm { q }),
    }
}

// The matroid of a matrix that they mean, if they name a field.
fn matroid_of(operands: &[String]) -> Option<Command>
    requires { AreOperands NameValue.Matroid (texts operands.now) (length (texts operands.now)) }
    ensures { MatchOption result (¬ (HasNeeded NameValue.Matroid (texts operands.now))) (AreMeant NameValue.Matroid (texts operands.now)) }
{
    match field_of(operands) {
        None => None,
        Some(q) => Some(Command::MatroidOf { q }),
    }
}

// The minor that they mean.
fn minor_of(operands: &[String]) -> Option<Command>
    requires { AreOperands NameValue.Minor (texts operands.now) (length (texts operands.now)) }
    ensures { MatchOption result (¬ (HasNeeded NameValue.Minor (texts operands.now))) (AreMeant NameValue.Minor (texts operands.now)) }
{
    let delete = elements_of(operands, Key::Delete);
    let contract = elements_of(operands, Key::Contract);
    Some(Command::Minor { delete, contract })
}

// The plane that they mean, if they name its order.
fn plane_of(operands: &[String]) -> Option<Command>
    requires { AreOperands NameValue.Plane (texts operands.now) (length (texts operands.now)) }
    ensures { MatchOption result (¬ (HasNeeded NameValue.Plane (texts operands.now))) (AreMeant NameValue.Plane (texts operands.now)) }
{
    match order_of(operands) {
        None => None,
        Some(q) => Some(Command::Plane { q }),
    }
}

// The number of elements of the field that is named.
fn field_of(operands: &[String]) -> Option<u8>
    requires { AreRight (texts operands.now) }
    ensures { MatchOption result (¬ (HasKey (texts operands.now) KeyValue.Field)) (λ q. IsOrder q × Gives (texts operands.now) KeyValue.Field (decimal q)) }
{
    match value_of(operands, Key::Field) {
        None => None,
        Some(text) => field_in(text),
    }
}

// The order of the plane that is named.
fn order_of(operands: &[String]) -> Option<u8>
    requires { AreRight (texts operands.now) }
    ensures { MatchOption result (¬ (HasKey (texts operands.now) KeyValue.Order)) (λ q. IsOrder q × (q ≤ PLANE_ORDER) × Gives (texts operands.now) KeyValue.Order (decimal q)) }
{
    match value_of(operands, Key::Order) {
        None => None,
        Some(text) => order_in(text),
    }
}

// The number within these bounds that is given to the key, or else the default.
fn number_of(operands: &[String], key: Key, least: u32, most: u32, default: u32) -> u32
    requires right { AreRight (texts operands.now) }
    requires values { (value : List ℕ) → IsValue key value → (k : ℕ) × (least ≤ k) × (k ≤ most) × (value ≡ decimal k) }
    requires within { (least ≤ default) × (default ≤ most) × (most < NUMBERS) }
    ensures given { GivesNumber (texts operands.now) key default result }
    ensures least { least ≤ result }
    ensures most { result ≤ most }
{
    match value_of(operands, key) {
        None => default,
        Some(text) => match number_in(text, least, most) {
            Some(k) => k,
            None => unreachable!(),
        },
    }
}

// Whether orbits are asked for.
fn orbits_of(operands: &[String]) -> bool
    requires { AreRight (texts operands.now) }
    ensures { GivesClasses (texts operands.now) result }
{
    match value_of(operands, Key::Classes) {
        None => false,
        Some(text) => match orbits_in(text) {
            Some(orbits) => orbits,
            None => unreachable!(),
        },
    }
}

// The mask of the elements that are given to a key of lists.
fn elements_of(operands: &[String], key: Key) -> u64
    requires right { AreRight (texts operands.now) }
    requires lists { (value : List ℕ) → IsValue key value → (xs : List ℕ) × IsListText value xs }
    ensures { GivesElements (texts operands.now) key result }
{
    match value_of(operands, key) {
        None => 0,
        Some(text) => match elements_in(text) {
            Some(mask) => mask,
            None => unreachable!(),
        },
    }
}
