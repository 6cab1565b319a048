//! It is a link itself.
ghost use Rattle.std.specs.Prelude.{◌≡◌, ◌≤◌, min, length, take, drop};

use crate::again::AgainLink;
use grid_outside::{Failed, Link};

/// Copies to the front of `into` as many bytes as both hold.
fn copy_front(into: &mut [u8], from: &[u8]) -> usize
    ensures count { result ≡ min (length into.old) (length from.now) }
    ensures front { take result into.new ≡ take result from.now }
{
    let count = into.len().min(from.len());
    let front = &mut into[..count];
    front.copy_from_slice(&from[..count]);
    count
}

/// The bytes from the place on.
fn behind(text: &[u8], at: usize) -> &[u8]
    requires { at ≤ length text.now }
    ensures { result.now ≡ drop at text.now }
{
    &text[at..]
}

impl<'a, L: Link> AgainLink<'a, L> {
    /// The link, of which these bytes were read last.
    pub fn new(inner: &'a mut L, again: &'a [u8]) -> AgainLink<'a, L>
        ensures inner { result.inner ≡ inner.entry }
        ensures again { result.again ≡ again.entry }
    {
        AgainLink { inner, again }
    }
}

impl<L: Link> Link for AgainLink<'_, L> {
    ghost use Rattle.std.proofs.Common.{refl, ◌∙◌};
    ghost use Rattle.again_link.specs.Again.{Awaits, GivesOn, HandsOn, awaits_more, awaits_none, gives_more, gives_none, hands_more, hands_none, view_without};

    ghost view = { λ l. view_without l.again.now (L.view l.inner.now) };

    // It stays the link inside, which gives on; what is left to be handed out is an end of what was, and as long as some is left the
    // link inside is not read.
    ghost Same = { λ x y. (y.inner.ghost_name ≡ x.inner.ghost_name) × L.Same x.inner.now y.inner.now
        × GivesOn (L.view x.inner.now).given (L.view y.inner.now).given × HandsOn x.again.now y.again.now
        × Awaits y.again.now (L.view x.inner.now) (L.view y.inner.now) };

    ghost same_refl = { λ x. (
      refl,
      L.same_refl x.inner.now,
      gives_none (L.view x.inner.now).given,
      hands_none x.again.now,
      awaits_none x.again.now (L.view x.inner.now),
    ) };

    ghost same_trans = { λ x y z p q. (
      q.0 ∙ p.0,
      L.same_trans x.inner.now y.inner.now z.inner.now p.1 q.1,
      gives_more (L.view x.inner.now).given (L.view y.inner.now).given (L.view z.inner.now).given p.2 q.2,
      hands_more x.again.now y.again.now z.again.now p.3 q.3,
      awaits_more (L.view x.inner.now) (L.view y.inner.now) (L.view z.inner.now) y.again.now z.again.now q.3 p.4 q.4,
    ) };

    fn read(&mut self, into: &mut [u8]) -> Result<usize, Failed> {
        if self.again.is_empty() {
            return self.inner.read(into);
        }
        let count = copy_front(into, self.again);
        self.again = behind(self.again, count);
        Ok(count)
    }

    fn write(&mut self, from: &[u8]) -> Result<usize, Failed> {
        self.inner.write(from)
    }
}
