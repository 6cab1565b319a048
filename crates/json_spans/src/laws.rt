//! What the definitions say among themselves. The functions do nothing: their contracts are the laws.
ghost use Rattle.std.specs.Prelude.{◌≡◌, ℕ, List, Some};
ghost use Rattle.serde_json.specs.Read.{read};
ghost use Rattle.serde_json.specs.Data.{string};
ghost use Rattle.json_spans.specs.Grammar.{Char, quoted, AreChars};
ghost use Rattle.json_spans.specs.Characters.{meaning};
ghost use Rattle.json_spans.specs.OneWay.{ReadOneWay, RefusedOneWay, NotBoth};
ghost use Rattle.json_spans.specs.declared.machine.TheConstants.{MAX_DEPTH};
ghost use Rattle.json_spans.specs.declared.object.TheConstants.{MAX_MEMBERS};

/// `serde_json` reads each string of RFC 8259 as the characters that it stands for. So two names of an object are one
/// exactly where their characters are.
pub fn strings_are_characters()
    ensures { (cs : List Char) → AreChars cs → read (quoted cs) ≡ Some (string (meaning cs)) }
{}

/// JSON (RFC 8259) is read in one way, at any depth: a text has one tree, between one white space in front and one behind.
/// So a text has one list of elements, of members and of characters, and `cut` one answer.
pub fn a_text_is_read_one_way()
    ensures { (bytes : List ℕ) → ReadOneWay bytes }
{}

/// A text is refused in one way: no text has two faults, nor one fault at two places, and none that is read has any. So
/// each fault of `cut` comes exactly where its definition holds.
pub fn a_text_is_refused_one_way()
    ensures fault { (bytes : List ℕ) → RefusedOneWay bytes }
    ensures read { (bytes : List ℕ) → NotBoth bytes }
{}

/// The number behind each name of a limit, since definitions cite the names.
pub fn fixed_limits()
    ensures depth { MAX_DEPTH ≡ 127 }
    ensures members { MAX_MEMBERS ≡ 1024 }
{}
