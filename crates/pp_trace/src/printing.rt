//! The text of a run, printed through one buffer.

ghost use Rattle.std.specs.Prelude.{◌≡◌, ℕ, ◌<◌, ◌≤◌, List, [], ◌++◌, length, false, IfOk, OnOk, OnErr, is_err};
ghost use Rattle.pp_outside.specs.Outside.{HasCause, WritesTillFault, OffersAll};
ghost use Rattle.pp_trace.specs.Printing.{Waiting, Printing, Waits, Puts, OffersFull, WritesOnce};
ghost use Rattle.pp_trace.specs.Text.{answer_line, contents_text, counts_text};

use crate::{Counts, text};
use pp_model::{Answer, NoMemory, Pair};
use pp_outside::{Failed, Sink};
use std::alloc::Global;
use std::marker::Model;

// How many bytes a printer keeps before it writes.
const BUFFER: usize = 65536;

/// Prints the text of a run to a sink through a buffer of 65,536 bytes. It writes only where the buffer is full,
/// and at its end; each write offers all that waits.
///
/// A contract sees the bytes that wait, and whether a write has failed. What was written followed by what waits
/// grows by exactly the text of each call. No call but `new` takes memory. A printer of which a call answered
/// `Failed` is not to be used again.
#[derive(Drop)]
pub struct Printer {
    buffer: Vec<u8>,
    failed: bool,
}

impl Model for Printer {
    ghost use Rattle.std.specs.Prelude.{◌≤◌, length, vec_capacity};
    ghost use Rattle.pp_trace.specs.Printing.{Waiting};

    ghost Value = { Waiting };

    ghost view = { λ p. record { waits = p.buffer.items; failed = p.failed } };

    ghost invariant = { λ p. (length p.buffer.items ≤ 65536) × (65536 ≤ vec_capacity p.buffer) };
}

impl Printer {
    /// A printer with an empty buffer, which is all the memory that it ever takes.
    ///
    /// # Errors
    ///
    /// `NoMemory` comes only where there was no memory for the buffer.
    pub fn new(alloc: Global) -> Result<Printer, NoMemory>
        ensures { IfOk result (λ p. p ≡ record { waits = []; failed = false }) }
    {
        let Ok(buffer) = Vec::with_capacity(alloc, BUFFER) else {
            return Err(NoMemory);
        };
        Ok(Printer {
            buffer,
            failed: false,
        })
    }

    /// Prints the line of a caller's call of this number, from 1: its answer.
    ///
    /// # Errors
    ///
    /// `Failed` comes with the first write that fails; what was written and what waits is a front of the text.
    pub fn reply<K: Sink>(
        &mut self,
        sink: &mut K,
        caller: u32,
        number: u32,
        answer: &Answer,
    ) -> Result<(), Failed>
        requires whole { self.old.failed ≡ false }
        ensures { Puts K.written K.faults K.Writes sink.old sink.new self.old self.new
            (answer_line caller number answer.now) result }
    {
        let line = text::of_answer(caller, number, answer);
        self.put(sink, line.as_str().as_bytes())
    }

    /// Prints how many pairs there are, and then each pair on a line.
    ///
    /// # Errors
    ///
    /// `Failed` comes with the first write that fails; what was written and what waits is a front of the text.
    pub fn contents<K: Sink>(&mut self, sink: &mut K, pairs: &[Pair]) -> Result<(), Failed>
        requires whole { self.old.failed ≡ false }
        ensures { Puts K.written K.faults K.Writes sink.old sink.new self.old self.new
            (contents_text pairs.now) result }
    {
        let line = text::of_length(pairs.len());
        self.put(sink, line.as_str().as_bytes())?;
        for pair in pairs {
            let line = text::of_pair(pair);
            self.put(sink, line.as_str().as_bytes())?;
        }
        Ok(())
    }

    /// Prints the nine lines of a made trace's run: the numbers of its lines, of its answers of each kind, and of
    /// its pairs.
    ///
    /// # Errors
    ///
    /// `Failed` comes with the first write that fails; what was written and what waits is a front of the text.
    pub fn summary<K: Sink>(
        &mut self,
        sink: &mut K,
        lines: u32,
        counts: &Counts,
        pairs: u32,
    ) -> Result<(), Failed>
        requires whole { self.old.failed ≡ false }
        ensures { Puts K.written K.faults K.Writes sink.old sink.new self.old self.new
            (counts_text lines counts.now pairs) result }
    {
        let text = text::of_counts(lines, counts, pairs);
        self.put(sink, text.as_str().as_bytes())
    }

    /// Writes all that waits.
    ///
    /// # Errors
    ///
    /// `Failed` comes with the first write that fails; what was written and what waits is a front of the text.
    pub fn end<K: Sink>(&mut self, sink: &mut K) -> Result<(), Failed>
        requires whole { self.old.failed ≡ false }
        ensures printed { Printing (K.written sink.old) (K.written sink.new)
            self.old.waits self.new.waits [] result }
        ensures empty { OnOk result (self.new.waits ≡ []) }
        ensures cause { HasCause (K.faults sink.old) (K.faults sink.new) result }
        ensures writes { WritesTillFault K.Writes OffersAll sink.old self.old.waits sink.new self.new.waits result }
        ensures failed { self.new.failed ≡ is_err result }
    {
        while !self.buffer.is_empty() {
            self.write(sink)?;
        }
        Ok(())
    }

    /// Prints this text: puts it behind what waits, and makes room by a write wherever the buffer is full.
    ///
    /// # Errors
    ///
    /// `Failed` comes with the first write that fails; what was written and what waits is a front of the text.
    pub fn put<K: Sink>(&mut self, sink: &mut K, text: &[u8]) -> Result<(), Failed>
        requires whole { self.old.failed ≡ false }
        ensures { Puts K.written K.faults K.Writes sink.old sink.new self.old self.new text.now result }
    {
        let mut rest = text;
        while !rest.is_empty() {
            self.make_room(sink)?;
            rest = self.keep(rest);
        }
        Ok(())
    }

    // Where the buffer is full, one write.
    fn make_room<K: Sink>(&mut self, sink: &mut K) -> Result<(), Failed>
        requires whole { self.old.failed ≡ false }
        ensures printed { Printing (K.written sink.old) (K.written sink.new)
            self.old.waits self.new.waits [] result }
        ensures cause { HasCause (K.faults sink.old) (K.faults sink.new) result }
        ensures room { OnOk result (length self.new.waits < 65536) }
        ensures roomy { length self.old.waits < 65536 → Waits sink.old sink.new
            self.old.waits self.new.waits [] result }
        ensures writes { WritesTillFault K.Writes OffersFull sink.old self.old.waits sink.new self.new.waits result }
        ensures failed { self.new.failed ≡ is_err result }
    {
        if self.buffer.len() < BUFFER {
            return Ok(());
        }
        self.write(sink)
    }

    // Puts what there is room for behind what waits, and gives the rest.
    fn keep<'a>(&mut self, text: &'a [u8]) -> &'a [u8]
        requires room { length self.old.waits < 65536 }
        requires some { 0 < length text.now }
        ensures kept { self.new.waits ++ result.now ≡ self.old.waits ++ text.now }
        ensures fewer { length result.now < length text.now }
        ensures failed { self.new.failed ≡ self.old.failed }
    {
        let count = text.len().min(BUFFER - self.buffer.len());
        let (now, later) = text.split_at(count);
        match self.buffer.extend_from_slice(now) {
            Ok(()) => later,
            Err(_) => unreachable!(),
        }
    }

    // One write of all that waits. What the sink takes waits no more.
    fn write<K: Sink>(&mut self, sink: &mut K) -> Result<(), Failed>
        requires some { 0 < length self.old.waits }
        requires whole { self.old.failed ≡ false }
        ensures printed { Printing (K.written sink.old) (K.written sink.new)
            self.old.waits self.new.waits [] result }
        ensures cause { HasCause (K.faults sink.old) (K.faults sink.new) result }
        ensures once { WritesOnce K.Writes sink.old self.old.waits sink.new self.new.waits result }
        ensures fewer { OnOk result (length self.new.waits < length self.old.waits) }
        ensures failed { self.new.failed ≡ is_err result }
    {
        match sink.write(&self.buffer) {
            Ok(count) => {
                self.buffer.rotate_left(count);
                self.buffer.truncate(self.buffer.len() - count);
                Ok(())
            }
            Err(_) => {
                self.failed = true;
                Err(Failed)
            }
        }
    }
}
