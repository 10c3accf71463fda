//! The reserved words of strict code, 7.6.1, with the literals `null`, `true` and `false`.

ghost use Rattle.std.specs.Prelude.{◌≡◌, ◌||◌, IsTrue, ◌↔◌, Contains};
ghost use Rattle.mdg_text.specs.ReservedWord as table;
ghost use Rattle.mdg_text.specs.Scanner.{is_in};

const BREAK_TO_CONST: [&str; 5] = ["break", "case", "catch", "class", "const"];

const CONTINUE_TO_DO: [&str; 5] = ["continue", "debugger", "default", "delete", "do"];

const ELSE_TO_FALSE: [&str; 5] = ["else", "enum", "export", "extends", "false"];

const FINALLY_TO_IMPLEMENTS: [&str; 5] = ["finally", "for", "function", "if", "implements"];

const IMPORT_TO_LET: [&str; 5] = ["import", "in", "instanceof", "interface", "let"];

const NEW_TO_PROTECTED: [&str; 5] = ["new", "null", "package", "private", "protected"];

const PUBLIC_TO_SWITCH: [&str; 5] = ["public", "return", "static", "super", "switch"];

const THIS_TO_TYPEOF: [&str; 5] = ["this", "throw", "true", "try", "typeof"];

const VAR_TO_YIELD: [&str; 5] = ["var", "void", "while", "with", "yield"];

fn is_break_to_const(text: &str) -> bool
    ensures { IsTrue result ↔ Contains table.break_to_const text.now }
{
    BREAK_TO_CONST.contains(&text)
}

fn is_continue_to_do(text: &str) -> bool
    ensures { IsTrue result ↔ Contains table.continue_to_do text.now }
{
    CONTINUE_TO_DO.contains(&text)
}

fn is_else_to_false(text: &str) -> bool
    ensures { IsTrue result ↔ Contains table.else_to_false text.now }
{
    ELSE_TO_FALSE.contains(&text)
}

fn is_finally_to_implements(text: &str) -> bool
    ensures { IsTrue result ↔ Contains table.finally_to_implements text.now }
{
    FINALLY_TO_IMPLEMENTS.contains(&text)
}

fn is_import_to_let(text: &str) -> bool
    ensures { IsTrue result ↔ Contains table.import_to_let text.now }
{
    IMPORT_TO_LET.contains(&text)
}

fn is_new_to_protected(text: &str) -> bool
    ensures { IsTrue result ↔ Contains table.new_to_protected text.now }
{
    NEW_TO_PROTECTED.contains(&text)
}

fn is_public_to_switch(text: &str) -> bool
    ensures { IsTrue result ↔ Contains table.public_to_switch text.now }
{
    PUBLIC_TO_SWITCH.contains(&text)
}

fn is_this_to_typeof(text: &str) -> bool
    ensures { IsTrue result ↔ Contains table.this_to_typeof text.now }
{
    THIS_TO_TYPEOF.contains(&text)
}

fn is_var_to_yield(text: &str) -> bool
    ensures { IsTrue result ↔ Contains table.var_to_yield text.now }
{
    VAR_TO_YIELD.contains(&text)
}

pub(crate) fn either(a: bool, b: bool) -> bool
    ensures { result ≡ (a || b) }
{
    a || b
}

/// Whether the text is one of the reserved words.
pub(crate) fn is_reserved_word(text: &str) -> bool
    ensures { result ≡ is_in table.reserved_words text.now }
{
    let to_const = is_break_to_const(text);
    let to_do = either(to_const, is_continue_to_do(text));
    let to_false = either(to_do, is_else_to_false(text));
    let to_implements = either(to_false, is_finally_to_implements(text));
    let to_let = either(to_implements, is_import_to_let(text));
    let to_protected = either(to_let, is_new_to_protected(text));
    let to_switch = either(to_protected, is_public_to_switch(text));
    let to_typeof = either(to_switch, is_this_to_typeof(text));
    either(to_typeof, is_var_to_yield(text))
}
