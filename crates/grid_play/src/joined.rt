//! An input and an output as one link.
ghost use Rattle.std.specs.Prelude.{◌≡◌, ◌≤◌, ◌<◌, length, take};

use grid_outside::{Failed, Link, Sink, Source};

/// Reads from the one and writes to the other, both of which stay where they are.
#[derive(Drop)]
pub struct Joined<'a, S: Source, K: Sink> {
    pub source: &'a mut S,
    pub sink: &'a mut K,
}

impl<S: Source, K: Sink> Link for Joined<'_, S, K> {
    ghost use Rattle.std.proofs.Common.{refl, ◌∙◌};
    ghost use Rattle.grid_play.specs.BothEnds.{link_of};

    ghost view = { λ l. link_of (S.view l.source.now) (K.view l.sink.now) };

    ghost Same = { λ x y. (y.source.ghost_name ≡ x.source.ghost_name) × (y.sink.ghost_name ≡ x.sink.ghost_name) };

    ghost same_refl = { λ x. (refl, refl) };

    ghost same_trans = { λ x y z p q. (q.0 ∙ p.0, q.1 ∙ p.1) };

    fn read(&mut self, into: &mut [u8]) -> Result<usize, Failed> {
        self.source.read(into)
    }

    fn write(&mut self, from: &[u8]) -> Result<usize, Failed> {
        self.sink.write(from)
    }
}
