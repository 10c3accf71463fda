//! Which names may stand in the first form.
ghost use Rattle.std.specs.Prelude.{◌≡◌, ◌||◌};
ghost use Rattle.mdg_scan.specs.FormLines.{blocks, choices, declarations, exits, is_among, is_free, is_reserved, module_names, operators, others, predefined, scopes, types, values};

const CHOICES: [&[u8]; 5] = [b"case", b"default", b"else", b"if", b"switch"];

const BLOCKS: [&[u8]; 5] = [b"do", b"for", b"try", b"while", b"with"];

const EXITS: [&[u8]; 5] = [b"break", b"continue", b"return", b"throw", b"yield"];

const OPERATORS: [&[u8]; 5] = [b"delete", b"in", b"instanceof", b"typeof", b"void"];

const VALUES: [&[u8]; 5] = [b"false", b"null", b"super", b"this", b"true"];

const DECLARATIONS: [&[u8]; 5] = [b"class", b"const", b"function", b"let", b"var"];

const TYPES: [&[u8]; 5] = [b"enum", b"extends", b"implements", b"interface", b"new"];

const SCOPES: [&[u8]; 5] = [b"package", b"private", b"protected", b"public", b"static"];

const OTHERS: [&[u8]; 5] = [b"catch", b"debugger", b"export", b"finally", b"import"];

const MODULE_NAMES: [&[u8]; 3] = [b"exports", b"module", b"require"];

const PREDEFINED: [&[u8]; 3] = [b"arguments", b"eval", b"undefined"];

fn is_choice(name: &[u8]) -> bool
    ensures { result ≡ is_among choices name.now }
{
    CHOICES.contains(&name)
}

fn is_block(name: &[u8]) -> bool
    ensures { result ≡ is_among blocks name.now }
{
    BLOCKS.contains(&name)
}

fn is_exit(name: &[u8]) -> bool
    ensures { result ≡ is_among exits name.now }
{
    EXITS.contains(&name)
}

fn is_operator(name: &[u8]) -> bool
    ensures { result ≡ is_among operators name.now }
{
    OPERATORS.contains(&name)
}

fn is_value(name: &[u8]) -> bool
    ensures { result ≡ is_among values name.now }
{
    VALUES.contains(&name)
}

fn is_declaration(name: &[u8]) -> bool
    ensures { result ≡ is_among declarations name.now }
{
    DECLARATIONS.contains(&name)
}

fn is_type(name: &[u8]) -> bool
    ensures { result ≡ is_among types name.now }
{
    TYPES.contains(&name)
}

fn is_scope(name: &[u8]) -> bool
    ensures { result ≡ is_among scopes name.now }
{
    SCOPES.contains(&name)
}

fn is_other(name: &[u8]) -> bool
    ensures { result ≡ is_among others name.now }
{
    OTHERS.contains(&name)
}

fn is_module_name(name: &[u8]) -> bool
    ensures { result ≡ is_among module_names name.now }
{
    MODULE_NAMES.contains(&name)
}

fn is_predefined(name: &[u8]) -> bool
    ensures { result ≡ is_among predefined name.now }
{
    PREDEFINED.contains(&name)
}

// Whether one of them holds. It keeps what is known of both, which `||` over two calls doesn't.
fn either(one: bool, other: bool) -> bool
    ensures { result ≡ (one || other) }
{
    one || other
}

#[tactic(auto, unfolding(crate::specs::FormLines::is_reserved))]
fn is_reserved(name: &[u8]) -> bool
    ensures { result ≡ is_reserved name.now }
{
    let named = either(is_module_name(name), is_predefined(name));
    let named = either(is_other(name), named);
    let named = either(is_scope(name), named);
    let named = either(is_type(name), named);
    let named = either(is_declaration(name), named);
    let named = either(is_value(name), named);
    let named = either(is_operator(name), named);
    let named = either(is_exit(name), named);
    let named = either(is_block(name), named);
    either(is_choice(name), named)
}

/// Whether these letters may be a name: there are 1 to 20 of them, and they spell no reserved word.
pub fn is_free(name: &[u8]) -> bool
    ensures { result ≡ is_free name.now }
{
    let reserved = is_reserved(name);
    1 <= name.len() && name.len() <= 20 && !reserved
}
