//! Sources and sinks over std's readers and writers.

ghost use Rattle.std.specs.Prelude.{◌≡◌, None, OnOk};
ghost use Rattle.std.specs.Io.KnownBytes.{ReadConsumes, WriteAppends};
ghost use Rattle.farm_base.specs.Counts.{Counts};
ghost use Rattle.farm_ports.specs.Ports.{PutGives, TakeGives};

use crate::{Failed, Port, Sink, Source};
use std::io::{Read, Write};
use std::marker::Model;

/// A source over a reader, by one read a take. Nothing is known of its bytes.
#[derive(Drop)]
pub struct StdSource<R> {
    inner: R,
    faults: u64,
}

impl<R> Model for StdSource<R> {
    ghost use Rattle.farm_ports.specs.Objects.{Counted};

    ghost Value = { Counted R };

    ghost view = { λ source. record { over = source.inner; faults = source.faults } };
}

impl<R: Read> StdSource<R> {
    /// A source over this reader, before its first fault.
    pub fn new(inner: R) -> Self
        ensures over { result.over ≡ inner }
        ensures faults { ⟦<StdSource<R> as Port>⟧.faults result ≡ 0 }
    {
        StdSource { inner, faults: 0 }
    }

    /// How many of its reads failed; the count stands still at the last `u64`.
    pub fn faults(&self) -> u64
        ensures faults { result ≡ ⟦<StdSource<R> as Port>⟧.faults self.now }
    {
        self.faults
    }
}

impl<R: Read> Port for StdSource<R> {
    ghost stream = { λ _. None };

    ghost held = { λ _. None };

    ghost faults = { λ source. source.faults };
}

impl<R: Read> Source for StdSource<R> {
    fn take(&mut self, into: &mut [u8]) -> Result<usize, Failed>
        ensures bytes { TakeGives (⟦<StdSource<R> as Port>⟧.stream self.old) (⟦<StdSource<R> as Port>⟧.stream self.new) into.new result }
        ensures held { ⟦<StdSource<R> as Port>⟧.held self.new ≡ ⟦<StdSource<R> as Port>⟧.held self.old }
        ensures counts { Counts (⟦<StdSource<R> as Port>⟧.faults self.old) (⟦<StdSource<R> as Port>⟧.faults self.new) result }

        // What a take gives is what one read gave.
        ensures reader { ReadConsumes (R.remaining self.old.over) (R.remaining self.new.over) result into.new }
    {
        match self.inner.read(into) {
            Ok(count) => Ok(count),
            Err(_) => Err(Failed::counted_in(&mut self.faults)),
        }
    }
}

/// A sink over a writer, by one write a put. Nothing is known of its bytes.
#[derive(Drop)]
pub struct StdSink<W> {
    inner: W,
    faults: u64,
}

impl<W> Model for StdSink<W> {
    ghost use Rattle.farm_ports.specs.Objects.{Counted};

    ghost Value = { Counted W };

    ghost view = { λ sink. record { over = sink.inner; faults = sink.faults } };
}

impl<W: Write> StdSink<W> {
    /// A sink over this writer, before its first fault.
    pub fn new(inner: W) -> Self
        ensures over { result.over ≡ inner }
        ensures faults { ⟦<StdSink<W> as Port>⟧.faults result ≡ 0 }
    {
        StdSink { inner, faults: 0 }
    }

    /// How many of its writes failed or took nothing; the count stands still at the last `u64`.
    pub fn faults(&self) -> u64
        ensures faults { result ≡ ⟦<StdSink<W> as Port>⟧.faults self.now }
    {
        self.faults
    }
}

impl<W: Write> Port for StdSink<W> {
    ghost stream = { λ _. None };

    ghost held = { λ _. None };

    ghost faults = { λ sink. sink.faults };
}

impl<W: Write> Sink for StdSink<W> {
    fn put(&mut self, bytes: &[u8]) -> Result<usize, Failed>
        ensures bytes { PutGives (⟦<StdSink<W> as Port>⟧.held self.old) (⟦<StdSink<W> as Port>⟧.held self.new) bytes.now result }
        ensures stream { ⟦<StdSink<W> as Port>⟧.stream self.new ≡ ⟦<StdSink<W> as Port>⟧.stream self.old }
        ensures counts { Counts (⟦<StdSink<W> as Port>⟧.faults self.old) (⟦<StdSink<W> as Port>⟧.faults self.new) result }

        // What a put takes is what one write took.
        ensures writer { WriteAppends (W.contents self.old.over) (W.contents self.new.over) result bytes.now }
    {
        match self.inner.write(bytes) {
            // A writer that takes nothing of a piece would keep its caller waiting forever.
            Ok(0) if !bytes.is_empty() => Err(Failed::counted_in(&mut self.faults)),
            Ok(count) => Ok(count),
            Err(_) => Err(Failed::counted_in(&mut self.faults)),
        }
    }
}
