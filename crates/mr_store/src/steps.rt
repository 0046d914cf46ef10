// Steps of a seat.
ghost use Rattle.std.specs.Prelude.{◌≡◌, ◌<◌, ◌≤◌, ◌≢◌, ◌+◌, ◌^◌, IsTrue, ℕ, [], slice_index, length, replicate, Some, None, Contains};
ghost use mathlib.Core.Option.{none};
ghost use Rattle.atomic_table.specs.Table.{step};
ghost use Rattle.mr_nogood.specs.declared.TheConstants.{ROW_WORDS};
ghost use Rattle.mr_nogood.specs.declared.row.Row.{Row};
ghost use Rattle.mr_nogood.specs.Row.{IsRow};
ghost use Rattle.mr_nogood.specs.Packing.{row_packing, head_of};
ghost use Rattle.mr_exchange.specs.declared.TheConstants.{SHORT};
ghost use Rattle.mr_exchange.specs.State.{slots_of};
ghost use Rattle.mr_exchange.specs.Events.{seen};
ghost use Rattle.mr_exchange.specs.Board.{CanOpen, CanPublish, pairs_shown};
ghost use Rattle.mr_store.specs.Seats.{find, word_at, holding_seen, known_of};
ghost use Rattle.mr_store.specs.Steps.{Opens, Publishes, Looks, Checks, HasAll};
ghost use Rattle.mr_store.specs.Private.Laying.{IsLaid, HasRow, row_seen, AreRows, with_found};

use crate::key::Key;
use crate::rule::{Check, Lay, LookAt, Noded, Open, Peek, Publish, Read, Rowed, Ruled};
use crate::view::View;
use atomic_table::{Seat, Shared};
use mr_assign::Assign;
use mr_exchange::{Look, PackedRows, SHORT, pairs_shown};
use mr_nogood::{ROW_WORDS, Row, row_of};

pub(crate) type Words = Shared<(), View, Key, Ruled>;

/// Adds one to the ticket word.
pub(crate) fn open_word<N: Noded>(words: &Words, seat: &mut Seat<(), View>, node: &Assign) -> u64
    requires node { node.now ≡ N.node }
    requires table { (seat.old.table_id ≡ words.now.table_id) × (1 < words.now.table_id.words) }
    requires live { IsTrue seat.old.me.0.pass.live }
    requires alone { seat.old.me.0.pass.joined ≡ [] }
    requires can { CanOpen (holding_seen seat.old.me.0) node.now }
    ensures table { (seat.new.table_id ≡ seat.old.table_id) × (seat.new.id ≡ seat.old.id) }
    ensures told { Opens node.now (step words.now.table_id.slots 1 1 0 none) seat.old.me result seat.new.me }
{
    words.fetch_add::<Open<N>>(seat, 1, 1)
}

/// Stores the words of a row behind the head of a slot.
pub(crate) fn store_row(words: &Words, seat: &mut Seat<(), View>, slot: u32, row: &[u64; ROW_WORDS])
    requires table { (seat.old.table_id ≡ words.now.table_id) × (word_at slot ROW_WORDS ≤ words.now.table_id.words) }
    requires live { IsTrue seat.old.me.0.pass.live }
    requires own { Contains (slots_of seat.old.me.0.pass.tickets) slot }
    requires unknown { known_of seat.old.me.0 slot ≡ None }
    ensures table { (seat.new.table_id ≡ seat.old.table_id) × (seat.new.id ≡ seat.old.id) }
    ensures held { seat.new.me.1 ≡ seat.old.me.1 }
    ensures laid { IsLaid seat.old.me.0 slot row.now ROW_WORDS seat.new.me.0 }
{
    for place in 1..ROW_WORDS {
        words.store::<Lay>(seat, word_at(slot, place), row[place]);
    }
}

/// Stores the head of a slot whose other words are those of the row.
pub(crate) fn publish_head<N: Rowed>(
    words: &Words,
    seat: &mut Seat<(), View>,
    slot: u32,
    row: &Row,
    head: u64,
)
    requires row { (slot ≡ N.place) × (row.now ≡ N.published) }
    requires head { head ≡ head_of row.now }
    requires table { (seat.old.table_id ≡ words.now.table_id) × (word_at slot ROW_WORDS ≤ words.now.table_id.words) }
    requires live { IsTrue seat.old.me.0.pass.live }
    requires can { CanPublish (holding_seen seat.old.me.0) slot row.now }
    requires good { IsRow row.now }
    requires laid { (j : ℕ) → 1 ≤ j → j < ROW_WORDS → find seat.old.me.0.laid (word_at slot j) ≡ Some (slice_index (row_packing row.now) j) }
    ensures table { (seat.new.table_id ≡ seat.old.table_id) × (seat.new.id ≡ seat.old.id) }
    ensures told { Publishes slot row.now (step words.now.table_id.slots (word_at slot 0) head 0 none) seat.old.me head seat.new.me }
{
    words.store::<Publish<N>>(seat, word_at(slot, 0), head);
}

/// Loads the head of the slot at the cursor.
pub(crate) fn look_at(words: &Words, seat: &mut Seat<(), View>, slot: u32) -> u64
    requires slot { slot ≡ seat.old.me.0.pass.cursor }
    requires table { (seat.old.table_id ≡ words.now.table_id) × (word_at slot ROW_WORDS ≤ words.now.table_id.words) }
    requires live { IsTrue seat.old.me.0.pass.live }
    requires alone { seat.old.me.0.pass.joined ≡ [] }
    requires some { seat.old.me.0.pass.tickets ≢ [] }
    ensures table { (seat.new.table_id ≡ seat.old.table_id) × (seat.new.id ≡ seat.old.id) }
    ensures told { Looks (step words.now.table_id.slots (word_at slot 0) 0 0 none) seat.old.me result seat.new.me }
{
    words.load::<LookAt>(seat, word_at(slot, 0))
}

/// What a slot with this head shows.
pub(crate) fn shown(words: &Words, seat: &mut Seat<(), View>, slot: u32, head: u64) -> Look
    requires table { (seat.old.table_id ≡ words.now.table_id) × (word_at slot ROW_WORDS ≤ words.now.table_id.words) }
    requires live { IsTrue seat.old.me.0.pass.live }
    requires row { head ≢ 0 → HasRow seat.old.me.0 slot head }
    ensures same { (seat.new.table_id ≡ seat.old.table_id) × (seat.new.id ≡ seat.old.id) × (seat.new.me ≡ seat.old.me) }
    ensures look { result ≡ seen slot (row_seen seat.old.me.0 slot head) }
{
    if head == 0 {
        return Look::Empty;
    }
    if pairs_shown(head) > u64::from(SHORT) {
        return Look::Long;
    }
    Look::Short(slot, read_row(words, seat, slot, head))
}

// Reads the row of a slot with this head.
fn read_row(words: &Words, seat: &mut Seat<(), View>, slot: u32, head: u64) -> Row
    requires table { (seat.old.table_id ≡ words.now.table_id) × (word_at slot ROW_WORDS ≤ words.now.table_id.words) }
    requires live { IsTrue seat.old.me.0.pass.live }
    requires row { HasRow seat.old.me.0 slot head }
    ensures same { (seat.new.table_id ≡ seat.old.table_id) × (seat.new.id ≡ seat.old.id) × (seat.new.me ≡ seat.old.me) }
    ensures row { find seat.old.me.0.found slot ≡ Some result }
{
    row_of(&read_words(words, seat, slot, head))
}

// Reads the words of a slot with this head.
fn read_words(words: &Words, seat: &mut Seat<(), View>, slot: u32, head: u64) -> [u64; ROW_WORDS]
    requires table { (seat.old.table_id ≡ words.now.table_id) × (word_at slot ROW_WORDS ≤ words.now.table_id.words) }
    requires live { IsTrue seat.old.me.0.pass.live }
    requires row { HasRow seat.old.me.0 slot head }
    ensures same { (seat.new.table_id ≡ seat.old.table_id) × (seat.new.id ≡ seat.old.id) × (seat.new.me ≡ seat.old.me) }
    ensures words { (row : Row) → find seat.old.me.0.found slot ≡ Some row → result ≡ row_packing row }
{
    let mut row = [0; ROW_WORDS];
    row[0] = head;
    for j in 1..ROW_WORDS {
        row[j] = words.load::<Read>(seat, word_at(slot, j));
    }
    row
}

/// A load that tells what holds of the seat.
pub(crate) fn check(words: &Words, seat: &mut Seat<(), View>)
    requires table { (seat.old.table_id ≡ words.now.table_id) × (0 < words.now.table_id.words) }
    requires live { IsTrue seat.old.me.0.pass.live }
    ensures table { (seat.new.table_id ≡ seat.old.table_id) × (seat.new.id ≡ seat.old.id) }
    ensures told { Checks (step words.now.table_id.slots 0 0 0 none) seat.old.me 0 seat.new.me }
{
    words.load::<Check>(seat, 0);
}

/// Loads the claim word, and tells how many cubes there are of them.
pub(crate) fn claimed(words: &Words, seat: &mut Seat<(), View>, cubes: u32) -> u32
    requires table { (seat.old.table_id ≡ words.now.table_id) × (1 < words.now.table_id.words) }
    requires live { IsTrue seat.old.me.0.pass.live }
    requires all { HasAll seat.old.me.0 }
    requires cubes { cubes ≡ seat.old.me.0.setting.problem.cubes }
    ensures same { (seat.new.table_id ≡ seat.old.table_id) × (seat.new.id ≡ seat.old.id) × (seat.new.me ≡ seat.old.me) }
    ensures count { result ≡ length seat.old.me.0.pass.cubes }
{
    words.load::<Peek>(seat, 0).min(u64::from(cubes)) as u32
}

/// Loads the ticket word, and tells how many nodes were opened.
pub(crate) fn opened(words: &Words, seat: &mut Seat<(), View>, nodes: u32) -> u32
    requires table { (seat.old.table_id ≡ words.now.table_id) × (1 < words.now.table_id.words) }
    requires live { IsTrue seat.old.me.0.pass.live }
    requires all { HasAll seat.old.me.0 }
    requires nodes { nodes ≡ seat.old.me.0.setting.problem.nodes }
    ensures same { (seat.new.table_id ≡ seat.old.table_id) × (seat.new.id ≡ seat.old.id) × (seat.new.me ≡ seat.old.me) }
    ensures count { result ≡ length seat.old.me.0.pass.tickets }
    ensures few { result ≤ nodes }
{
    words.load::<Peek>(seat, 1).min(u64::from(nodes)) as u32
}

/// Puts the rows of the first slots, for as many nodes as were opened, into slots without rows.
pub(crate) fn read_rows(
    words: &Words,
    seat: &mut Seat<(), View>,
    opened: u32,
    rows: &mut PackedRows,
)
    requires table { (seat.old.table_id ≡ words.now.table_id) × (word_at opened 0 ≤ words.now.table_id.words) }
    requires live { IsTrue seat.old.me.0.pass.live }
    requires all { HasAll seat.old.me.0 }
    requires opened { opened ≤ length rows.old }
    requires none { rows.old ≡ replicate (length rows.old) None }
    ensures same { (seat.new.table_id ≡ seat.old.table_id) × (seat.new.id ≡ seat.old.id) × (seat.new.me ≡ seat.old.me) }
    ensures rows { AreRows seat.old.me.0 (length rows.old) opened rows.new }
{
    for slot in 0..opened {
        read_slot(words, seat, slot, rows);
    }
}

// Puts the row of a slot into one without, if there is a row.
fn read_slot(words: &Words, seat: &mut Seat<(), View>, slot: u32, rows: &mut PackedRows)
    requires table { (seat.old.table_id ≡ words.now.table_id) × (word_at slot ROW_WORDS ≤ words.now.table_id.words) }
    requires live { IsTrue seat.old.me.0.pass.live }
    requires all { HasAll seat.old.me.0 }
    requires slot { slot < length rows.old }
    ensures same { (seat.new.table_id ≡ seat.old.table_id) × (seat.new.id ≡ seat.old.id) × (seat.new.me ≡ seat.old.me) }
    ensures rows { rows.new ≡ with_found slot (known_of seat.old.me.0 slot) rows.old }
{
    let head = words.load::<Peek>(seat, word_at(slot, 0));
    if head != 0 {
        rows.put(slot, &read_words(words, seat, slot, head));
    }
}

// Word j of a slot.
fn word_at(slot: u32, j: usize) -> usize
    requires { j < ROW_WORDS }
    ensures { result ≡ word_at slot j }
{
    2 + ROW_WORDS * (slot as usize) + j
}
