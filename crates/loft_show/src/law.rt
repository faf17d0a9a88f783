//! The laws of the canonical text.

ghost use Rattle.std.specs.Prelude.{◌≡◌, ℕ, [], ◌∷◌};
ghost use Rattle.loft_tree.specs.Source.{Source, Expression, Statement, Declaration, ModuleHead, Named, Order};
ghost use Rattle.loft_tree.specs.Fits.{SourceFits, ExpressionFits, DeclarationFits, OrderFits};
ghost use Rattle.loft_grammar.specs.Texts.{Reads};
ghost use Rattle.loft_grammar.specs.Limits.{limits, line_limits, nesting};
ghost use Rattle.loft_grammar.specs.Expressions.{whole};
ghost use Rattle.loft_grammar.specs.Statements.{statement};
ghost use Rattle.loft_grammar.specs.Items.{item, head, local, order};
ghost use Rattle.loft_grammar.specs.PartsFit.{HeadFits, NamedFits, LineFits};
ghost use Rattle.loft_show.specs.Canon.{Canon, line, lines_text, expression_pieces, statement_lines, declaration_lines, head_line, local_line, order_line};
ghost use Rattle.loft_show.specs.Places.{without_places, bare_expression, bare_statement, bare_declaration, bare_head, bare_named, bare_order};
ghost use Rattle.loft_show.specs.PartReads.{ReadsAs, IsOneLine};

/// The canonical text of a program that keeps the limits reads as that program, but for the places.
pub fn canon_reads()
    ensures { (p : Source) → SourceFits p → (q : Source) × Reads (Canon p) q × (without_places q ≡ without_places p) }
{}

/// The canonical lines of a part of a source that keeps the limits of a line read as that part, but for
/// the offsets (docs/LANGUAGE.md, "Parts of a source").
pub fn canon_parts_read()
    ensures expression { (e : Expression) → ExpressionFits nesting e
        → ReadsAs limits whole bare_expression (lines_text (line 0 (expression_pieces e []) ∷ [])) e }
    ensures statement { (x : Statement) → IsOneLine x → LineFits x
        → ReadsAs line_limits statement bare_statement (lines_text (statement_lines x 0)) x }
    ensures declaration { (x : Declaration) → DeclarationFits x
        → ReadsAs limits item bare_declaration (lines_text (declaration_lines x)) x }
    ensures head { (h : ModuleHead) → HeadFits h
        → ReadsAs limits head bare_head (lines_text (head_line h ∷ [])) h }
    ensures local { (n : ℕ) (v : Named) → NamedFits v
        → ReadsAs limits local bare_named (lines_text (local_line n v ∷ [])) v }
    ensures order { (x : Order) → OrderFits x
        → ReadsAs limits order bare_order (lines_text (order_line x ∷ [])) x }
{}
