//! What holds of texts by their definitions alone.

ghost use Rattle.std.specs.Prelude.{◌≡◌, ◌<◌, ◌⊎◌, ◌↔◌, ℕ, List, Ok};
ghost use Rattle.loft_lex.specs.declared.token.Token.{Token};
ghost use Rattle.loft_lex.specs.Symbol.{Symbol};
ghost use Rattle.loft_lex.specs.Cut.{Cut};
ghost use Rattle.loft_form.specs.declared.fault.Fault.{Fault};
ghost use Rattle.loft_form.specs.Faults.{IsFaultOf, StopsWhole};
ghost use Rattle.loft_tree.specs.Source.{Source};
ghost use Rattle.loft_parse.specs.declared.error.ParseError.{ParseError};
ghost use Rattle.loft_parse.specs.declared.error.ParseError.TheVariants.{Expected, TooDeep, TooMany};
ghost use Rattle.loft_grammar.specs.Texts.{Reads};
ghost use Rattle.loft_parse.specs.Faults.{SourceFault};
ghost use Rattle.loft_grammar.specs.Limits.{limits, nesting, beginning};
ghost use Rattle.loft_grammar.specs.Statements.{rules};
ghost use Rattle.loft_grammar.specs.Items.{program};
ghost use Rattle.loft_parse.specs.Alike.{AgreeUpTo, StandsAt};
ghost use Rattle.loft_parse.specs.Unlimited.{ReadsUnlimited, StopsUnlimited};

/// Each text, however long, is that of one program or has one fault, and never both
/// (docs/LANGUAGE.md, "Which program a text is" and "The fault of a text").
pub fn texts_are_decided()
    ensures one { (text : List ℕ) (p q : Source) → Reads text p → Reads text q → p ≡ q }
    ensures one_fault { (text : List ℕ) (d e : ParseError)
        → SourceFault text d → SourceFault text e → d ≡ e }
    ensures never_both { (text : List ℕ) (p : Source) (e : ParseError)
        → Reads text p → ¬ SourceFault text e }
    ensures some { (text : List ℕ)
        → ((p : Source) × Reads text p) ⊎ ((e : ParseError) × SourceFault text e) }
{}

/// A fault of the grammar depends on nothing after its token: another text that begins with the
/// same symbols, up to and with the one at the fault, and has all its tokens has the same fault.
/// So it is no program. A fault at the text's end stands at no token, and a text that goes on
/// there may be a program (docs/LANGUAGE.md, "The fault of a text").
pub fn faults_are_local()
    ensures same_fault { (text other : List ℕ) (e : ParseError) (offset : ℕ)
        → SourceFault text e → StandsAt e offset → AgreeUpTo offset text other
        → SourceFault other e }
    ensures no_program { (text other : List ℕ) (e : ParseError) (offset : ℕ)
        → SourceFault text e → StandsAt e offset → AgreeUpTo offset text other
        → (p : Source) → ¬ Reads other p }
{}

/// By the grammar without limits each text that has all its tokens is that of one program or
/// stops at one offset, and never both. Where a text within the limits is a program it is the
/// same one; where its fault is Expected it stands at that stop; and a fault of a limit stands
/// before it. The fault of a list of symbols, which is defined kind by kind, is where they stop
/// with all limits at once (docs/LANGUAGE.md, "The fault of a text").
pub fn limits_come_before_stops()
    ensures some { (text : List ℕ) (ts : List Token) → Cut text (Ok ts)
        → ((p : Source) × ReadsUnlimited text p) ⊎ ((at : ℕ) × StopsUnlimited text at) }
    ensures one { (text : List ℕ) (p q : Source)
        → ReadsUnlimited text p → ReadsUnlimited text q → p ≡ q }
    ensures one_stop { (text : List ℕ) (at stop : ℕ)
        → StopsUnlimited text at → StopsUnlimited text stop → at ≡ stop }
    ensures never_both { (text : List ℕ) (p : Source) (at : ℕ)
        → ReadsUnlimited text p → ¬ StopsUnlimited text at }
    ensures within { (text : List ℕ) (p : Source) → Reads text p → ReadsUnlimited text p }
    ensures expected { (text : List ℕ) (at : ℕ)
        → SourceFault text (Expected at) → StopsUnlimited text at }
    ensures too_deep { (text : List ℕ) (at stop : ℕ)
        → SourceFault text (TooDeep at) → StopsUnlimited text stop → at < stop }
    ensures too_many { (text : List ℕ) (at limit stop : ℕ)
        → SourceFault text (TooMany at limit) → StopsUnlimited text stop → at < stop }
    ensures at_once { (ss : List Symbol) (f : Fault)
        → IsFaultOf rules limits nesting program ss beginning f
        ↔ StopsWhole rules limits nesting program ss beginning f }
{}
