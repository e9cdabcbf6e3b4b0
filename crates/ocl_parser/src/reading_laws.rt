ghost use Rattle.std.specs.Prelude.{◌≡◌, ℕ, List, codes, false, Some, Ok};
ghost use Rattle.ql_lex.specs.Lexed.{Lexeme};
ghost use Rattle.ql_lex.specs.Lexemes.{is_sign, stands};
ghost use Rattle.qv_syntax.specs.declared.name.Path.{Path};
ghost use Rattle.qv_syntax.specs.declared.type_tree.TypeTree.{TypeTree};
ghost use Rattle.ocl_parser.specs.Grammar.{class_path, type_of};
ghost use Rattle.ocl_parser.specs.Readings.{path_read, type_read};

/// The path of a class and a written type are read exactly by the grammar: what is read is spelled, and what is spelled is
/// read, where no `::` follows.
pub fn types_are_read()
    ensures path_found { (ts : List Lexeme) (levels from end : ℕ) (p : Path) → path_read ts from ≡ Ok (p, end) → class_path ts p levels from ≡ Some end }
    ensures path_only { (ts : List Lexeme) (levels from end : ℕ) (p : Path) → class_path ts p levels from ≡ Some end → stands (is_sign (codes "::")) ts end ≡ false → path_read ts from ≡ Ok (p, end) }
    ensures type_found { (ts : List Lexeme) (levels from end : ℕ) (t : TypeTree) → type_read ts levels from ≡ Ok (t, end) → type_of ts t levels from ≡ Some end }
    ensures type_only { (ts : List Lexeme) (levels from end : ℕ) (t : TypeTree) → type_of ts t levels from ≡ Some end → stands (is_sign (codes "::")) ts end ≡ false → type_read ts levels from ≡ Ok (t, end) }
{}
