ghost use Rattle.std.specs.Prelude.{◌≡◌, ◌<◌, ◌≤◌, ◌+◌, ◌*◌, ◌≢◌, ℕ, length, replicate, slice_set, Some, None};
ghost use Rattle.mr_nogood.specs.declared.TheConstants.{ROW_WORDS};
ghost use Rattle.mr_nogood.specs.declared.row.Row.{Row as RowIs};
ghost use Rattle.mr_nogood.specs.Row.{IsRow};
ghost use Rattle.mr_nogood.specs.Follows.{in_slots};
ghost use Rattle.mr_nogood.specs.Packing.{row_packing};
ghost use Rattle.mr_exchange.specs.Private.Packed.{words_of};

use mr_nogood::{ROW_WORDS, Row, row_of};
use std::marker::Model;

/// The slots of a board, each with the words of a row or with zeros. Clauses see the list of their rows.
#[derive(Drop)]
pub struct PackedRows {
    words: Vec<u64>,
    slots: u32,
}

impl Model for PackedRows {
    ghost use Rattle.std.specs.Prelude.{List, Option};
    ghost use Rattle.mr_nogood.specs.declared.row.Row.{Row};
    ghost use Rattle.mr_exchange.specs.Private.Packed.{rows_read, ArePacked};

    ghost Value = { List (Option Row) };

    ghost view = { λ a. rows_read a.words.items a.slots };

    ghost invariant = { λ a. ArePacked a.words.items a.slots };
}

impl PackedRows {
    /// So many slots without rows, from zeros for their words, at least fifteen for each.
    pub fn of_zeros(words: Vec<u64>, slots: u32) -> PackedRows
        requires zeros { words.items ≡ replicate (length words.items) 0 }
        requires size { ROW_WORDS * slots ≤ length words.items }
        ensures { result ≡ replicate slots None }
    {
        PackedRows { words, slots }
    }

    /// Puts a row in a slot, by its words, in place of one that it may have. The other slots stay.
    pub fn put(&mut self, slot: u32, words: &[u64; ROW_WORDS])
        requires slot { slot < length self.old }
        requires row { (row : RowIs) × IsRow row × (words.now ≡ row_packing row) }
        ensures { (row : RowIs) → IsRow row → words.now ≡ row_packing row → self.new ≡ slice_set self.old slot (Some row) }
    {
        copy_words(&mut self.words, slot, words);
    }

    /// The row of a slot, if there is one.
    pub(crate) fn row(&self, slot: u32) -> Option<Row>
        ensures { result ≡ in_slots self.now slot }
    {
        if slot >= self.slots {
            return None;
        }
        if self.words[ROW_WORDS * slot as usize] == 0 {
            return None;
        }
        Some(row_of(&words_of(&self.words, slot)))
    }
}

// Writes the words of a slot.
fn copy_words(words: &mut Vec<u64>, slot: u32, row: &[u64; ROW_WORDS])
    requires { ROW_WORDS * slot + ROW_WORDS ≤ length words.old.items }
    ensures size { length words.new.items ≡ length words.old.items }
    ensures here { words_of words.new.items slot ≡ row.now }
    ensures others { (other : ℕ) → other ≢ slot → words_of words.new.items other ≡ words_of words.old.items other }
{
    for j in 0..ROW_WORDS {
        words[ROW_WORDS * slot as usize + j] = row[j];
    }
}

// Reads them.
fn words_of(words: &[u64], slot: u32) -> [u64; ROW_WORDS]
    requires { ROW_WORDS * slot + ROW_WORDS ≤ length words.now }
    ensures { result ≡ words_of words.now slot }
{
    let mut row = [0; ROW_WORDS];
    for j in 0..ROW_WORDS {
        row[j] = words[ROW_WORDS * slot as usize + j];
    }
    row
}
