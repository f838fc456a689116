//! What the definitions promise, for callers to use.
//!
//! The functions do nothing. Their contracts are laws about histories, headers, tokens and used lines.
ghost use Rattle.std.specs.Prelude.{◌≡◌, ◌↔◌, ◌≤◌, ◌+◌, ◌++◌, [], ◌∷◌, List, ℕ, Some, length};
ghost use Rattle.std.specs.List.{fold, position_or_len};
ghost use Rattle.memchr.specs.Find.{is_byte};
ghost use Rattle.audit_lex.specs.Classes.{IsOfClass};
ghost use Rattle.audit_lex.specs.Header.{Head, head_of};
ghost use Rattle.audit_lex.specs.History.{History, Settle, settled, cuts_of, lines_of, tail_of, with_bytes};
ghost use Rattle.audit_lex.specs.LineClass.{Class, Used, text_class, class_of};
ghost use Rattle.audit_lex.specs.LineFields.{ReadableSyscall, IsReadable};
ghost use Rattle.audit_lex.specs.Tally.{Classed, nothing_counted, one_counted, tally_of};
ghost use Rattle.audit_lex.specs.Tokens.{tokens_of};
ghost use Rattle.audit_lex.specs.Pieces.{Piece, ArePieces, pieces_text, named_pieces};
ghost use Rattle.audit_lex.specs.UsedLine.{IsUsedLine};
ghost use Rattle.audit_lex.specs.Written.{IsHeaded};
ghost use Rattle.audit_lex.specs.declared.fields.Kind.{Kind};
ghost use Rattle.audit_lex.specs.declared.fields.Kind.TheVariants as kind;
ghost use Rattle.audit_lex.specs.declared.header.EventKey.{EventKey};

/// Bytes that come in two pieces are bytes that come in one.
pub fn pieces_are_joined()
    ensures { (history : History) (first second : List ℕ)
        → with_bytes (with_bytes history first) second ≡ with_bytes history (first ++ second) }
{}

/// Lines that have ended stay, and are no more than the bytes and settles.
pub fn lines_stay()
    ensures stay { (history more : History)
        → (later : List (List ℕ)) × (lines_of (history ++ more) ≡ lines_of history ++ later) }
    ensures few { (history : History) → length (lines_of history) ≤ length history }
{}

/// Bytes without a line feed are appended to the tail, and a line feed after them ends it as a line.
pub fn line_feeds_end_lines()
    ensures lines { (history : History) (part : List ℕ)
        → position_or_len (is_byte 10) part ≡ length part
        → lines_of (with_bytes history part) ≡ lines_of history }
    ensures tail { (history : History) (part : List ℕ)
        → position_or_len (is_byte 10) part ≡ length part
        → tail_of (with_bytes history part) ≡ tail_of history ++ part }
    ensures ended { (history : History) (part : List ℕ)
        → position_or_len (is_byte 10) part ≡ length part
        → lines_of (with_bytes history (part ++ 10 ∷ [])) ≡ lines_of history ++ (tail_of history ++ part) ∷ [] }
    ensures nothing_left { (history : History) (part : List ℕ)
        → position_or_len (is_byte 10) part ≡ length part
        → tail_of (with_bytes history (part ++ 10 ∷ [])) ≡ [] }
{}

/// A settle ends a tail of at least one byte, and a second one changes nothing.
pub fn settles_end_tails()
    ensures ended { (history : History)
        → cuts_of (history ++ Settle ∷ []) ≡ settled (lines_of history) (tail_of history) }
    ensures nothing_left { (history : History) → tail_of (history ++ Settle ∷ []) ≡ [] }
    ensures twice { (history : History)
        → cuts_of (history ++ Settle ∷ Settle ∷ []) ≡ cuts_of (history ++ Settle ∷ []) }
{}

/// A header is read exactly if the line can be written with it.
pub fn headers_are_written()
    ensures read { (line : List ℕ) (head : Head) → IsHeaded line head → head_of line ≡ Some head }
    ensures written { (line : List ℕ) (head : Head) → head_of line ≡ Some head
        → IsHeaded line head }
{}

/// Every raw part can be written as spaces and tokens, and has the tokens that it is written with.
pub fn tokens_are_written()
    ensures read { (pieces : List Piece) → ArePieces pieces
        → tokens_of (pieces_text pieces) ≡ named_pieces pieces }
    ensures written { (raw : List ℕ)
        → (pieces : List Piece) × ArePieces pieces × (raw ≡ pieces_text pieces) }
{}

/// A line is used exactly if it can be written with a header and tokens that spell each field of its kind.
pub fn used_lines_are_written()
    ensures { (line : List ℕ) (key : EventKey) (kind : Kind) → (text_class line ≡ Used key kind)
        ↔ IsUsedLine line key kind }
{}

/// A line has a class exactly if it can be written as one of that class, so it has one class and one fault at most.
pub fn lines_have_one_class()
    ensures { (limit : ℕ) (line : List ℕ) (class : Class) → (class_of limit line ≡ class)
        ↔ IsOfClass limit line class }
{}

/// The fields of a used line can be read, except those that it may leave out.
pub fn used_lines_are_readable()
    ensures { (line : List ℕ) (key : EventKey) (kind : Kind) → text_class line ≡ Used key kind
        → IsReadable kind line }
{}

/// The fields of a used line of a system call can be read, except those that it may leave out.
pub fn used_syscalls_are_readable()
    ensures text { (line : List ℕ) (key : EventKey) → text_class line ≡ Used key kind.Syscall
        → ReadableSyscall line }
    ensures line { (limit : ℕ) (line : List ℕ) (key : EventKey)
        → class_of limit line ≡ Used key kind.Syscall → ReadableSyscall line }
{}

/// Lines that are counted one after the other are all counted, each in its class, and the first malformed ones are listed.
pub fn lines_are_counted()
    ensures counted { (shown : ℕ) (lines : List Classed)
        → fold (one_counted shown) nothing_counted lines ≡ tally_of shown lines }
    ensures each { (shown : ℕ) (lines : List Classed)
        → (tally_of shown lines).used + (tally_of shown lines).other + (tally_of shown lines).blank + (tally_of shown lines).malformed ≡ length lines }
{}
