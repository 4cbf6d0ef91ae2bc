//! Texts of long lists, made by several threads.
//!
//! 1. The list is cut in two, and each half again, so that there are some pieces for each thread.
//! 2. The text of each piece is made by itself, and each is copied once, when all are made to one.

ghost use Rattle.std.specs.Prelude.{◌≡◌, ◌<◌, ◌++◌, [], IfOk, OnOk, OnErr};
ghost use Rattle.std.specs.List.{flat_map};
ghost use Rattle.std.specs.Thread.{IsSync};
ghost use Rattle.graph_model.specs.TableText.{table_text};

use crate::spelling::{Spelling, append_each};
use crate::table::EntryLine;
use crate::text::Text;
use crate::threads::cuts_for;
use graph_model::{Entry, Table};
use items::NoMemory;
use std::alloc::Global;
use std::marker::{Model, Sync};
use std::thread::{Threads, join};

/// Fewer items aren't worth a thread.
const LEAST_ITEMS: usize = 8192;

/// Room for so many bytes is taken for each item: a line of a journal has about as many.
const BYTES: usize = 24;

/// Texts that are one after the other.
#[derive(Drop)]
pub struct Pieces {
    /// In their order.
    texts: Vec<Text>,
}

impl Model for Pieces {
    ghost use Rattle.std.specs.Prelude.{ℕ, List};
    ghost use Rattle.std.specs.List.{concat};

    ghost Value = { List ℕ };

    ghost view = { λ pieces. concat pieces.texts.items };
}

impl Pieces {
    /// No text. Takes no memory.
    pub fn new(alloc: Global) -> Pieces
        ensures { result ≡ [] }
    {
        Pieces {
            texts: Vec::new(alloc),
        }
    }

    /// Puts a text after the others.
    pub fn push(&mut self, text: Text) -> Result<(), NoMemory>
        ensures ok { OnOk result (self.new ≡ self.old ++ text) }
        ensures err { OnErr result (self.new ≡ self.old) }
    {
        self.texts.push(text)?;
        Ok(())
    }

    /// Puts the texts of others after these.
    pub fn append(&mut self, others: Pieces) -> Result<(), NoMemory>
        ensures ok { OnOk result (self.new ≡ self.old ++ others) }
        ensures err { OnErr result (self.new ≡ self.old) }
    {
        let Pieces { texts } = others;
        let mut texts = texts;
        self.texts.append(&mut texts)?;
        Ok(())
    }

    /// The one text that they make up. Each is let go of as soon as it is copied, and one alone isn't copied.
    pub fn joined(self, alloc: Global) -> Result<Text, NoMemory>
        ensures { IfOk result (λ text. text ≡ self) }
    {
        let Pieces { texts } = self;
        let mut texts = texts;
        if texts.len() == 1
            && let Some(text) = texts.pop()
        {
            return Ok(text);
        }
        let mut joined = Text::with_capacity(alloc, bytes_of(texts.as_slice()))?;
        'texts: for text in texts {
            joined.push_bytes(text.as_slice())?;
        }
        Ok(joined)
    }
}

/// How many bytes texts have, up to the last number.
fn bytes_of(texts: &[Text]) -> usize {
    texts
        .iter()
        .fold(0, |bytes: usize, text| bytes.saturating_add(text.len()))
}

/// The text of a table: a line for each vertex.
pub fn text_of_table<R: Threads + Sync>(
    rt: &R,
    alloc: Global,
    table: &Table,
) -> Result<Text, NoMemory>
    ensures { IfOk result (λ text. text ≡ table_text table.now) }
{
    let text = text_of_items::<R, Entry, EntryLine>(rt, alloc, table.as_slice())?;
    Ok(text)
}

/// The text of a list: each item as it is spelled, one after the other.
pub fn text_of_items<R: Threads + Sync, T: Sync, S: Spelling<T> + Sync>(
    rt: &R,
    alloc: Global,
    items: &[T],
) -> Result<Text, NoMemory>
    ensures { IfOk result (λ text. text ≡ flat_map S.text_of items.now) }
{
    let pieces = pieces_of_items::<R, T, S>(rt, alloc, items)?;
    let text = pieces.joined(alloc)?;
    Ok(text)
}

/// The same in pieces.
pub fn pieces_of_items<R: Threads + Sync, T: Sync, S: Spelling<T> + Sync>(
    rt: &R,
    alloc: Global,
    items: &[T],
) -> Result<Pieces, NoMemory>
    ensures { IfOk result (λ pieces. pieces ≡ flat_map S.text_of items.now) }
{
    let cuts = cuts_for(rt);
    let pieces = pieces_of::<R, T, S>(rt, alloc, items, cuts)?;
    Ok(pieces)
}

/// The pieces of items, which are cut so often.
#[cycle(pieces)]
fn pieces_of<R: Threads + Sync, T: Sync, S: Spelling<T> + Sync>(
    rt: &R,
    alloc: Global,
    items: &[T],
    cuts: u32,
) -> Result<Pieces, NoMemory>
    ensures { IfOk result (λ pieces. pieces ≡ flat_map S.text_of items.now) }
{
    if cuts == 0 || items.len() < LEAST_ITEMS {
        return piece_of::<T, S>(alloc, items);
    }
    let (front, rest) = items.split_at(items.len() / 2);
    let pieces = pieces_of_both::<R, T, S>(rt, alloc, front, rest, cuts)?;
    Ok(pieces)
}

/// The same of two halves.
#[cycle(pieces)]
fn pieces_of_both<R: Threads + Sync, T: Sync, S: Spelling<T> + Sync>(
    rt: &R,
    alloc: Global,
    front: &[T],
    rest: &[T],
    cuts: u32,
) -> Result<Pieces, NoMemory>
    requires cuts { 0 < cuts }
    ensures { IfOk result (λ pieces. pieces ≡ flat_map S.text_of front.now ++ flat_map S.text_of rest.now) }
{
    let (first, second) = join(
        rt,
        || -> Result<Pieces, NoMemory>
            requires { IsSync R.row × IsSync T.row × IsSync S.row × (0 < cuts) }
            ensures { IfOk result (λ pieces. pieces ≡ flat_map S.text_of front.entry.now) }
        { pieces_of::<R, T, S>(rt, alloc, front, cuts - 1) },
        || -> Result<Pieces, NoMemory>
            requires { IsSync R.row × IsSync T.row × IsSync S.row × (0 < cuts) }
            ensures { IfOk result (λ pieces. pieces ≡ flat_map S.text_of rest.entry.now) }
        { pieces_of::<R, T, S>(rt, alloc, rest, cuts - 1) },
    );
    let (first, second) = (first?, second?);
    let mut pieces = first;
    pieces.append(second)?;
    Ok(pieces)
}

/// The piece of items, made by one thread.
fn piece_of<T, S: Spelling<T>>(alloc: Global, items: &[T]) -> Result<Pieces, NoMemory>
    ensures { IfOk result (λ pieces. pieces ≡ flat_map S.text_of items.now) }
{
    // Grown from nothing it would be copied as often as it doubles. What isn't needed is never touched.
    let mut text = Text::with_capacity(alloc, items.len().saturating_mul(BYTES))?;
    append_each::<T, S>(items, &mut text)?;
    let mut pieces = Pieces::new(alloc);
    pieces.push(text)?;
    Ok(pieces)
}
