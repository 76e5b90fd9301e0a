//! A source taken whole, and bytes put into a sink.
ghost use Rattle.std.specs.Prelude.{◌≡◌, ◌≤◌, ◌↔◌, false, is_err};
ghost use Rattle.std.specs.Prelude.{vec_len, IfOk, IsErrOf, IsTrue, OnOk};
ghost use Rattle.std.specs.Io.KnownBytes.{Appends};
ghost use Rattle.pram_streams.specs.Transfer.{AppendsBeginning, Gives, GivesMoreThan, GivesSome};

use crate::device::{Failed, Sink, Source};
use std::alloc::Global;
use thiserror::Error;

/// The most bytes that a source is taken with.
pub const MOST: usize = 67_108_864;

/// The most bytes of one pull.
const PIECE: usize = 16_384;

/// Why a source was not taken whole.
#[derive(Debug, PartialEq, Eq, Drop, Error)]
pub enum TakeFault {
    #[error("Device")]
    Device,
    #[error("Memory")]
    Memory,
    #[error("TooLarge")]
    TooLarge,
}

/// All the bytes of a source, of which there are at most `MOST`. Time and memory are linear in the
/// bytes read. Its piece is on the stack, so it keeps a frame of its own.
#[inline(never)]
pub fn take<R: Source>(alloc: Global, source: &mut R) -> Result<Vec<u8>, TakeFault>
    requires { R.has_failed source.old ≡ false }
    ensures all { IfOk result (λ bytes. Gives (R.remaining source.old) (R.remaining source.new)
        bytes.items) }
    ensures small { IfOk result (λ bytes. vec_len bytes ≤ MOST) }
    ensures too_large { IsErrOf result TakeFault.TooLarge
        → GivesMoreThan MOST (R.remaining source.old) (R.remaining source.new) }
    ensures failed { IsTrue (R.has_failed source.new) ↔ IsErrOf result TakeFault.Device }
    ensures reads { GivesSome (R.remaining source.old) (R.remaining source.new) }
{
    let mut bytes = Vec::new(alloc);
    let mut piece = [0u8; PIECE];
    loop {
        let Ok(count) = source.pull(&mut piece) else {
            return Err(TakeFault::Device);
        };
        if count == 0 {
            return Ok(bytes);
        }
        if count > MOST - bytes.len() {
            return Err(TakeFault::TooLarge);
        }
        if bytes.extend_from_slice(&piece[..count]).is_err() {
            return Err(TakeFault::Memory);
        }
    }
}

/// Puts all the bytes into the sink, or a beginning of them where it fails.
pub fn put<W: Sink>(sink: &mut W, bytes: &[u8]) -> Result<(), Failed>
    requires { W.has_failed sink.old ≡ false }
    ensures ok { OnOk result (Appends (W.taken sink.old) (W.taken sink.new) bytes.now) }
    ensures beginning { AppendsBeginning (W.taken sink.old) (W.taken sink.new) bytes.now }
    ensures failed { W.has_failed sink.new ≡ is_err result }
{
    let mut sent = 0;
    while sent < bytes.len() {
        sent += sink.push(&bytes[sent..])?;
    }
    Ok(())
}
