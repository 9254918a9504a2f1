//! Laws of the definitions of a tags file, which mention no program: each line has one code or
//! parts, and each file one fault or its tags.
ghost use Rattle.std.specs.Prelude.{◌≡◌, ◌↔◌, ◌+◌, ◌++◌, ◌∷◌, [], Ok, Err, Some, ℕ, List, fold, true};
ghost use Rattle.tags.specs.Bytes.{tab};
ghost use Rattle.tags.specs.Escapes.{decoded};
ghost use Rattle.tags.specs.Fault.{Reading, contents, tags_of, IsFaultless, IsFirstFault};
ghost use Rattle.tags.specs.Grammar.{HasFront, IsName, Spells, TagLine};
ghost use Rattle.tags.specs.Judging.{HasTags, HasFault, judged, lines_rise};
ghost use Rattle.tags.specs.Lines.{Cuts, IsReading, Line, lines_of, with_last};
ghost use Rattle.tags.specs.Steps.Readings.{reading_of};
ghost use Rattle.tags.specs.Parts.{parts_in};
ghost use Rattle.tags.specs.Steps.Reading.{ordinary_of};
ghost use Rattle.tags.specs.Steps.Said.{said_by, said_without_address};
ghost use Rattle.tags.specs.States.{Summary, listed, next, running, state_after, stopped, summary_of};
ghost use Rattle.tags.specs.Values.{TagValue};
ghost use Rattle.tags.specs.Written.{IsWritten};
ghost use Rattle.tags.specs.declared.code.Code.{Code};
ghost use Rattle.tags.specs.declared.code.Code.TheVariants.{T04};
ghost use Rattle.tags.specs.declared.code.LineFault.{LineFault};

/// What is written by the grammar's pieces is read as the bytes that they represent, and nothing
/// else is read. So a written text has one meaning.
pub fn escape_law()
    ensures read { (written value : List ℕ) → IsWritten value written → decoded written ≡ Some value }
    ensures written { (written value : List ℕ) → decoded written ≡ Some value → IsWritten value written }
{}

/// A line of the grammar has one cut and says one thing, and what isn't of the grammar has no tag.
pub fn grammar_law()
    ensures one_cut { (t u : TagLine) (line : List ℕ) → Spells t line → Spells u line → parts_in t ≡ parts_in u }
    ensures one_tag { (t : TagLine) (line : List ℕ) → Spells t line → ordinary_of line ≡ said_by t }
    ensures no_front { (line : List ℕ) → (HasFront line → ⊥) → ordinary_of line ≡ Err T04 }
    ensures no_address { (line name file rest : List ℕ) → IsName name → IsName file
        → line ≡ name ++ tab ∷ (file ++ tab ∷ rest) → ((t : TagLine) → Spells t line → ⊥)
        → ordinary_of line ≡ said_without_address name file }
{}

/// Each line has one reading, which its steps find: the least code whose condition holds, or where
/// none does what the line says.
pub fn reading_law()
    ensures holds { (line : Line) → IsReading line (reading_of line) }
    ensures only { (line : Line) (reading : Reading) → IsReading line reading → reading ≡ reading_of line }
{}

/// There is one list of lines: the pieces that an LF ends, and a last one that isn't empty.
pub fn lines_law()
    ensures { (text : List ℕ) (pieces : List (List ℕ)) (last : List ℕ) → Cuts text pieces last
        → lines_of text ≡ with_last pieces last }
{}

/// Lines have at most one first fault, and a reader of them stops there. Where it doesn't stop
/// there is none, and it keeps the tags and what has to be known of the lines. Once stopped it
/// stays so.
pub fn state_law()
    ensures one { (lines : List Reading) (j k : ℕ) (c d : Code) → IsFirstFault lines j c → IsFirstFault lines k d → (j ≡ k) × (c ≡ d) }
    ensures stopped { (lines : List Reading) (n : ℕ) (c : Code) → state_after listed [] lines ≡ stopped n c
        → (k : ℕ) × (n ≡ k + 1) × IsFirstFault lines k c }
    ensures running { (lines : List Reading) (s : Summary (List TagValue)) → state_after listed [] lines ≡ running s
        → IsFaultless lines × (s ≡ summary_of (tags_of (contents lines)) (contents lines)) }
    ensures stays { (lines : List Reading) (n : ℕ) (c : Code) → fold (next listed) (stopped n c) lines ≡ stopped n c }
{}

/// A text has its tags where no line is faulty, and else its first fault. The lines of the tags
/// rise.
pub fn text_law()
    ensures tags { (text : List ℕ) (tags : List TagValue) → (judged text ≡ Ok tags) ↔ HasTags text tags }
    ensures fault { (text : List ℕ) (fault : LineFault) → (judged text ≡ Err fault) ↔ HasFault text fault }
    ensures rising { (text : List ℕ) (tags : List TagValue) → HasTags text tags → lines_rise tags ≡ true }
{}
