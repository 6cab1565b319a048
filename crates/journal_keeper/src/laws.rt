//! Laws of images, each as the contract of a function that does nothing.
ghost use Rattle.journal_keeper.specs.Images.{FrontsAreImages, KillsLeaveImages, WrittenIsJournal};
ghost use Rattle.journal_keeper.specs.Keeps.{CutPiecesAreImages, PiecesGoOn};

/// Whatever front of its entries a journal ends with, it has whole ones and at most a part of one.
pub fn fronts_are_images()
    ensures { FrontsAreImages }
{}

/// A kill while a journal grows leaves all that stood there, whole entries behind it, and at most a part of one.
#[tactic(auto, using(crate::proofs::ImageLemmas::kills_leave_images))]
pub fn kills_leave_images()
    ensures { KillsLeaveImages }
{}

/// The bytes of a log are the journal of its history.
#[tactic(auto, using(crate::proofs::ImageLemmas::written_is_journal))]
pub fn written_is_journal()
    ensures { WrittenIsJournal }
{}

/// A journal goes on with the bytes of entries.
#[tactic(auto, using(crate::proofs::HoldsLemmas::pieces_go_on))]
pub fn pieces_go_on()
    ensures { PiecesGoOn }
{}

/// An append that took a part of the bytes of entries leaves an image.
#[tactic(auto, using(crate::proofs::HoldsLemmas::cut_pieces_are_images))]
pub fn cut_pieces_are_images()
    ensures { CutPiecesAreImages }
{}
