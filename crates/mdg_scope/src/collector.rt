//! The occurrences of a tree.

ghost use Rattle.std.specs.Prelude.{◌≡◌, ◌+◌, [], OnOk, IfOk, map, option_map, if◌then◌else◌};
ghost use Rattle.std.specs.Option.{option_copied};
ghost use Rattle.mdg_tree.specs.Views as views;
ghost use Rattle.mdg_scope.specs.Names.{add_name, has_name};
ghost use Rattle.mdg_scope.specs.Collectors as collectors;
ghost use Rattle.mdg_scope.specs.Occurrences as occurrences;
ghost use Rattle.mdg_scope.specs.declared.occurrence.OccurrenceKind.TheVariants as kind;

use crate::names::Names;
use crate::occurrence::{Context, Head, Occurrence, OccurrenceKind, Occurrences, Use};
use mdg_base::{Items, NoMemory, Text, copy_optional, copy_texts};
use mdg_tree::{
    Declaration, Expr, FileTree, Function, Goal, Init, Property, Stmt, UnaryOperator, key_name,
    name_of, string_of,
};
use std::alloc::Global;

fn add(
    into: &mut Occurrences,
    alloc: Global,
    kind: OccurrenceKind,
    offset: u32,
    within: u32,
    name: &str,
) -> Result<(), NoMemory>
    ensures { OnOk result (into.new ≡ collectors.add kind offset within name.now into.old) }
{
    let name = Text::of(alloc, name)?;
    into.all.push(Occurrence {
        kind,
        offset,
        within,
        name,
    })?;
    Ok(())
}

/// The string literal that the expression is, as its occurrences tell it.
fn text_of(tree: &Expr) -> Option<&Text>
    ensures { option_copied result ≡ occurrences.text_of tree.now }
{
    string_of(tree)
}

/// The text that is the only argument.
fn only_text(arguments: &[Expr]) -> Option<&Text>
    ensures { option_copied result ≡ collectors.only_text (map occurrences.expr_collector arguments.now) }
{
    match arguments {
        [one] => text_of(one),
        _ => None,
    }
}

/// How the name is used that is called with these arguments.
fn callee_use(alloc: Global, arguments: &[Expr]) -> Result<Use, NoMemory>
    ensures { IfOk result (λ u. u ≡ collectors.callee_use (collectors.only_text (map occurrences.expr_collector arguments.now))) }
{
    match only_text(arguments) {
        Some(text) => Ok(Use::Called(text.copy(alloc)?)),
        None => Ok(Use::Read),
    }
}

/// What a name is, by how it is used.
fn use_kind(alloc: Global, usage: &Use, line: u32) -> Result<OccurrenceKind, NoMemory>
    ensures { IfOk result (λ r. r ≡ collectors.use_kind usage.now line) }
{
    match usage {
        Use::Read => Ok(OccurrenceKind::Read),
        Use::Assigned => Ok(OccurrenceKind::Assigned),
        Use::TypeOperand => Ok(OccurrenceKind::TypeOperand),
        Use::Called(text) => Ok(OccurrenceKind::Called(crate::occurrence::Callee {
            line,
            text: text.copy(alloc)?,
        })),
    }
}

fn name_occurrence(
    into: &mut Occurrences,
    alloc: Global,
    usage: &Use,
    line: u32,
    offset: u32,
    within: u32,
    name: &Text,
) -> Result<(), NoMemory>
    ensures { OnOk result (into.new ≡ collectors.add (collectors.use_kind usage.now line) offset within name.now into.old) }
{
    let kind = use_kind(alloc, usage, line)?;
    add(into, alloc, kind, offset, within, name.as_str())
}

/// A `delete` of a name.
fn deleted(
    into: &mut Occurrences,
    alloc: Global,
    operand: &Expr,
    offset: u32,
    context: Context,
) -> Result<(), NoMemory>
    ensures { OnOk result (into.new ≡ collectors.deleted_occurrence (views.name_of operand.now) offset context into.old) }
{
    match name_of(operand) {
        Some(name) => add(
            into,
            alloc,
            OccurrenceKind::Deleted,
            offset,
            context.function,
            name.as_str(),
        ),
        None => Ok(()),
    }
}

/// A `new` of a name, or of something else.
fn constructed(
    into: &mut Occurrences,
    alloc: Global,
    callee: &Expr,
    offset: u32,
    context: Context,
) -> Result<(), NoMemory>
    ensures { OnOk result (into.new ≡ collectors.constructed_occurrence (views.name_of callee.now) offset context into.old) }
{
    match name_of(callee) {
        Some(name) => add(
            into,
            alloc,
            OccurrenceKind::Constructed,
            offset,
            context.function,
            name.as_str(),
        ),
        None => add(
            into,
            alloc,
            OccurrenceKind::OtherConstructed,
            offset,
            context.function,
            "",
        ),
    }
}

fn jump(
    into: &mut Occurrences,
    alloc: Global,
    offset: u32,
    context: Context,
) -> Result<(), NoMemory>
    ensures { OnOk result (into.new ≡ collectors.jump_occurrences offset context into.old) }
{
    if context.in_loop {
        Ok(())
    } else {
        add(
            into,
            alloc,
            OccurrenceKind::LooseJump,
            offset,
            context.function,
            "",
        )
    }
}

/// The occurrence of a `delete` of a name.
fn operator_occurrence(
    into: &mut Occurrences,
    alloc: Global,
    operator: UnaryOperator,
    operand: &Expr,
    offset: u32,
    context: Context,
) -> Result<(), NoMemory>
    ensures { OnOk result (into.new ≡ collectors.operator_occurrence operator (views.name_of operand.now) offset context into.old) }
{
    match operator {
        UnaryOperator::Delete => deleted(into, alloc, operand, offset, context),
        UnaryOperator::TypeOf
        | UnaryOperator::Void
        | UnaryOperator::Plus
        | UnaryOperator::Minus
        | UnaryOperator::BitNot
        | UnaryOperator::Not => Ok(()),
    }
}

/// How an operator uses its operand.
fn operand_use(operator: UnaryOperator) -> Use
    ensures { result ≡ collectors.operand_use operator }
{
    match operator {
        UnaryOperator::TypeOf => Use::TypeOperand,
        UnaryOperator::Delete
        | UnaryOperator::Void
        | UnaryOperator::Plus
        | UnaryOperator::Minus
        | UnaryOperator::BitNot
        | UnaryOperator::Not => Use::Read,
    }
}

/// Each key that stands among those before it.
#[tactic(auto, using(crate::proofs::Equations::properties))]
fn repeated_keys(
    into: &mut Occurrences,
    alloc: Global,
    properties: &[Property],
    within: u32,
) -> Result<(), NoMemory>
    ensures { OnOk result (into.new ≡ collectors.repeated_keys within [] (map occurrences.property_occurrences properties.now) into.old) }
{
    let mut seen = Names::create(alloc);
    for property in properties {
        let key = key_name(&property.key).as_str();
        repeated_key(into, alloc, &mut seen, property.at.offset, within, key)?;
    }
    Ok(())
}

/// The key, where it stands among those that were seen.
fn repeated_key<'a>(
    into: &mut Occurrences,
    alloc: Global,
    seen: &mut Names<'a>,
    offset: u32,
    within: u32,
    key: &'a str,
) -> Result<(), NoMemory>
    ensures occurrence { OnOk result (into.new ≡ (if has_name seen.old key.now then collectors.add kind.RepeatedKey offset within key.now into.old else into.old)) }
    ensures seen { OnOk result (seen.new ≡ add_name seen.old key.now) }
{
    if seen.add(key)? {
        Ok(())
    } else {
        add(
            into,
            alloc,
            OccurrenceKind::RepeatedKey,
            offset,
            within,
            key,
        )
    }
}

/// A function begins, and takes the next number.
fn begin_occurrence(
    into: &mut Occurrences,
    alloc: Global,
    function: &Function,
    within: u32,
) -> Result<u32, NoMemory>
    ensures occurrence { OnOk result (into.new ≡ collectors.begin_occurrence function.now.name function.now.parameters function.now.line function.now.offset within into.old) }
    ensures number { IfOk result (λ n. n ≡ into.old.begun + 1) }
{
    let Some(number) = into.begun.checked_add(1) else {
        return Err(NoMemory);
    };
    let head = Head {
        number,
        name: copy_optional(alloc, &function.name)?,
        parameters: copy_texts(alloc, function.parameters.as_slice())?,
        line: function.line,
    };
    into.all.push(Occurrence {
        kind: OccurrenceKind::Begins(head),
        offset: function.offset,
        within,
        name: Text::of(alloc, "")?,
    })?;
    into.begun = number;
    Ok(number)
}

fn offset_at(offsets: &[u32], other: u32, index: usize) -> u32
    ensures { result ≡ collectors.offset_at offsets.now other index }
{
    offsets.get(index).copied().unwrap_or(other)
}

/// A parameter, after those that were seen.
fn parameter<'a>(
    into: &mut Occurrences,
    alloc: Global,
    seen: &mut Names<'a>,
    offset: u32,
    within: u32,
    name: &'a str,
) -> Result<(), NoMemory>
    ensures occurrence { OnOk result (into.new ≡ collectors.add (collectors.parameter_kind (has_name seen.old name.now)) offset within name.now into.old) }
    ensures seen { OnOk result (seen.new ≡ add_name seen.old name.now) }
{
    if seen.add(name)? {
        add(into, alloc, OccurrenceKind::Parameter, offset, within, name)
    } else {
        add(
            into,
            alloc,
            OccurrenceKind::RepeatedParameter,
            offset,
            within,
            name,
        )
    }
}

fn parameters(
    into: &mut Occurrences,
    alloc: Global,
    function: &Function,
    within: u32,
) -> Result<(), NoMemory>
    ensures { OnOk result (into.new ≡ collectors.parameter_occurrences function.now.parameter_offsets function.now.offset within [] 0 function.now.parameters into.old) }
{
    let mut seen = Names::create(alloc);
    for (index, name) in function.parameters.as_slice().iter().enumerate() {
        let offset = offset_at(
            function.parameter_offsets.as_slice(),
            function.offset,
            index,
        );
        parameter(into, alloc, &mut seen, offset, within, name.as_str())?;
    }
    Ok(())
}

/// A function with its parameters, and its number.
fn begin(
    into: &mut Occurrences,
    alloc: Global,
    function: &Function,
    within: u32,
) -> Result<u32, NoMemory>
    ensures occurrence { OnOk result (into.new ≡ collectors.head_occurrences function.now.name function.now.parameters function.now.parameter_offsets function.now.line function.now.offset within into.old) }
    ensures number { IfOk result (λ n. n ≡ into.old.begun + 1) }
{
    let number = begin_occurrence(into, alloc, function, within)?;
    parameters(into, alloc, function, number)?;
    Ok(number)
}

fn own_name(
    into: &mut Occurrences,
    alloc: Global,
    function: &Function,
    within: u32,
) -> Result<(), NoMemory>
    ensures { OnOk result (into.new ≡ collectors.name_occurrence kind.Own function.now.name function.now.name_offset within into.old) }
{
    match &function.name {
        Some(name) => add(
            into,
            alloc,
            OccurrenceKind::Own,
            function.name_offset,
            within,
            name.as_str(),
        ),
        None => Ok(()),
    }
}

fn declared_name(
    into: &mut Occurrences,
    alloc: Global,
    function: &Function,
    within: u32,
) -> Result<(), NoMemory>
    ensures { OnOk result (into.new ≡ collectors.name_occurrence kind.Declared function.now.name function.now.name_offset within into.old) }
{
    match &function.name {
        Some(name) => add(
            into,
            alloc,
            OccurrenceKind::Declared,
            function.name_offset,
            within,
            name.as_str(),
        ),
        None => Ok(()),
    }
}

fn variable(
    into: &mut Occurrences,
    alloc: Global,
    offset: u32,
    within: u32,
    name: &Text,
) -> Result<(), NoMemory>
    ensures { OnOk result (into.new ≡ collectors.add kind.Variable offset within name.now into.old) }
{
    add(
        into,
        alloc,
        OccurrenceKind::Variable,
        offset,
        within,
        name.as_str(),
    )
}

fn within_loop(context: Context) -> Context
    ensures { result ≡ collectors.within_loop context }
{
    Context {
        function: context.function,
        in_loop: true,
    }
}

fn inside(within: u32) -> Context
    ensures { result ≡ collectors.inside within }
{
    Context {
        function: within,
        in_loop: false,
    }
}

#[cycle(collect)]
#[tactic(auto, using(crate::proofs::Equations::uses))]
fn expression(
    into: &mut Occurrences,
    alloc: Global,
    tree: &Expr,
    usage: &Use,
    context: Context,
) -> Result<(), NoMemory>
    ensures { OnOk result (into.new ≡ occurrences.used_of tree.now usage.now context into.old) }
{
    match tree {
        Expr::Null(..) | Expr::True(..) | Expr::False(..) | Expr::Numeral(..) | Expr::Text(..) =>
            Ok(()),
        Expr::Name(at, name) => name_occurrence(
            into,
            alloc,
            usage,
            at.line,
            at.offset,
            context.function,
            name,
        ),
        Expr::Paren(_, inner) => expression(into, alloc, inner.get(), usage, context),
        Expr::Member(_, object, _) => expression(into, alloc, object.get(), &Use::Read, context),
        Expr::Prefix(_, _, target) | Expr::Postfix(_, _, target) => {
            expression(into, alloc, target.get(), &Use::Assigned, context)
        }
        Expr::Comma(_, all) | Expr::Array(_, all) => expressions(
            into,
            alloc,
            all.as_slice(),
            context,
        ),
        Expr::FunctionExpression(function) => expressed(into, alloc, function, context),
        Expr::Assign(_, _, target, value) => {
            expression(into, alloc, target.get(), &Use::Assigned, context)?;
            expression(into, alloc, value.get(), &Use::Read, context)
        }
        Expr::Binary(_, _, left, right) | Expr::Index(_, left, right) => {
            expression(into, alloc, left.get(), &Use::Read, context)?;
            expression(into, alloc, right.get(), &Use::Read, context)
        }
        Expr::Conditional(_, test, chosen, other) => {
            expression(into, alloc, test.get(), &Use::Read, context)?;
            expression(into, alloc, chosen.get(), &Use::Read, context)?;
            expression(into, alloc, other.get(), &Use::Read, context)
        }
        Expr::Unary(at, operator, value) => {
            operator_occurrence(into, alloc, *operator, value.get(), at.offset, context)?;
            let usage = operand_use(*operator);
            expression(into, alloc, value.get(), &usage, context)
        }
        Expr::New(at, callee) => {
            constructed(into, alloc, callee.get(), at.offset, context)?;
            expression(into, alloc, callee.get(), &Use::Read, context)
        }
        Expr::NewWithArguments(at, callee, arguments) => {
            constructed(into, alloc, callee.get(), at.offset, context)?;
            expression(into, alloc, callee.get(), &Use::Read, context)?;
            expressions(into, alloc, arguments.as_slice(), context)
        }
        Expr::Call(_, callee, arguments) => {
            let usage = callee_use(alloc, arguments.as_slice())?;
            expression(into, alloc, callee.get(), &usage, context)?;
            expressions(into, alloc, arguments.as_slice(), context)
        }
        Expr::Object(_, properties) => {
            repeated_keys(into, alloc, properties.as_slice(), context.function)?;
            values(into, alloc, properties.as_slice(), context)
        }
    }
}

#[cycle(collect)]
#[tactic(auto, using(crate::proofs::Walks::walks))]
fn expressions(
    into: &mut Occurrences,
    alloc: Global,
    all: &[Expr],
    context: Context,
) -> Result<(), NoMemory>
    ensures { OnOk result (into.new ≡ collectors.read_all (map occurrences.expr_collector all.now) context into.old) }
{
    for one in all {
        expression(into, alloc, one, &Use::Read, context)?;
    }
    Ok(())
}

#[cycle(collect)]
#[tactic(auto, using(crate::proofs::Walks::walks))]
fn values(
    into: &mut Occurrences,
    alloc: Global,
    all: &[Property],
    context: Context,
) -> Result<(), NoMemory>
    ensures { OnOk result (into.new ≡ collectors.all_values (map occurrences.property_occurrences all.now) context into.old) }
{
    for one in all {
        property(into, alloc, one, context)?;
    }
    Ok(())
}

#[cycle(collect)]
#[tactic(auto, using(crate::proofs::Equations::properties))]
fn property(
    into: &mut Occurrences,
    alloc: Global,
    one: &Property,
    context: Context,
) -> Result<(), NoMemory>
    ensures { OnOk result (into.new ≡ (occurrences.property_occurrences one.now).value context into.old) }
{
    expression(into, alloc, &one.value, &Use::Read, context)
}

#[cycle(collect)]
#[tactic(auto, using(crate::proofs::Equations::functions))]
fn expressed(
    into: &mut Occurrences,
    alloc: Global,
    function: &Function,
    context: Context,
) -> Result<(), NoMemory>
    ensures { OnOk result (into.new ≡ (occurrences.function_occurrences function.now).expressed context into.old) }
{
    let number = begin(into, alloc, function, context.function)?;
    own_name(into, alloc, function, number)?;
    statements(into, alloc, function.body.as_slice(), inside(number))
}

#[cycle(collect)]
#[tactic(auto, using(crate::proofs::Equations::functions))]
fn declared(
    into: &mut Occurrences,
    alloc: Global,
    function: &Function,
    context: Context,
) -> Result<(), NoMemory>
    ensures { OnOk result (into.new ≡ (occurrences.function_occurrences function.now).declared context into.old) }
{
    declared_name(into, alloc, function, context.function)?;
    let number = begin(into, alloc, function, context.function)?;
    statements(into, alloc, function.body.as_slice(), inside(number))
}

#[cycle(collect)]
#[tactic(auto, using(crate::proofs::Walks::walks))]
fn statements(
    into: &mut Occurrences,
    alloc: Global,
    all: &[Stmt],
    context: Context,
) -> Result<(), NoMemory>
    ensures { OnOk result (into.new ≡ collectors.collect_all (map occurrences.stmt_occurrences all.now) context into.old) }
{
    for one in all {
        statement(into, alloc, one, context)?;
    }
    Ok(())
}

#[cycle(collect)]
#[tactic(auto, using(crate::proofs::Equations::statements))]
fn statement(
    into: &mut Occurrences,
    alloc: Global,
    tree: &Stmt,
    context: Context,
) -> Result<(), NoMemory>
    ensures { OnOk result (into.new ≡ occurrences.stmt_occurrences tree.now context into.old) }
{
    match tree {
        Stmt::Empty(..) | Stmt::Return(..) => Ok(()),
        Stmt::Block(_, body) => statements(into, alloc, body.as_slice(), context),
        Stmt::Var(_, all) => declarations(into, alloc, all.as_slice(), context),
        Stmt::FunctionDeclaration(function) => declared(into, alloc, function, context),
        Stmt::Continue(at) | Stmt::Break(at) => jump(into, alloc, at.offset, context),
        Stmt::Expression(_, value) | Stmt::ReturnValue(_, value) | Stmt::Throw(_, value) => {
            expression(into, alloc, value, &Use::Read, context)
        }
        Stmt::If(_, test, body) => {
            expression(into, alloc, test, &Use::Read, context)?;
            statement(into, alloc, body.get(), context)
        }
        Stmt::IfElse(_, test, body, other) => {
            expression(into, alloc, test, &Use::Read, context)?;
            statement(into, alloc, body.get(), context)?;
            statement(into, alloc, other.get(), context)
        }
        Stmt::DoWhile(_, body, test) => {
            statement(into, alloc, body.get(), within_loop(context))?;
            expression(into, alloc, test, &Use::Read, context)
        }
        Stmt::While(_, test, body) => {
            expression(into, alloc, test, &Use::Read, context)?;
            statement(into, alloc, body.get(), within_loop(context))
        }
        Stmt::For(_, init, test, update, body) => {
            initial(into, alloc, init, context)?;
            optional(into, alloc, test, context)?;
            optional(into, alloc, update, context)?;
            statement(into, alloc, body.get(), within_loop(context))
        }
        Stmt::ForIn(_, target, object, body) => {
            goal(into, alloc, target, context)?;
            expression(into, alloc, object, &Use::Read, context)?;
            statement(into, alloc, body.get(), within_loop(context))
        }
    }
}

#[cycle(collect)]
fn optional(
    into: &mut Occurrences,
    alloc: Global,
    tree: &Option<Expr>,
    context: Context,
) -> Result<(), NoMemory>
    ensures { OnOk result (into.new ≡ collectors.optional (option_map occurrences.expr_collector tree.now) context into.old) }
{
    match tree {
        Some(part) => expression(into, alloc, part, &Use::Read, context),
        None => Ok(()),
    }
}

#[cycle(collect)]
#[tactic(auto, using(crate::proofs::Equations::statements))]
fn initial(
    into: &mut Occurrences,
    alloc: Global,
    init: &Init,
    context: Context,
) -> Result<(), NoMemory>
    ensures { OnOk result (into.new ≡ occurrences.init_occurrences init.now context into.old) }
{
    match init {
        Init::Absent => Ok(()),
        Init::Declarations(_, all) => declarations(into, alloc, all.as_slice(), context),
        Init::Initial(value) => expression(into, alloc, value, &Use::Read, context),
    }
}

#[cycle(collect)]
#[tactic(auto, using(crate::proofs::Equations::statements))]
fn goal(
    into: &mut Occurrences,
    alloc: Global,
    target: &Goal,
    context: Context,
) -> Result<(), NoMemory>
    ensures { OnOk result (into.new ≡ occurrences.goal_occurrences target.now context into.old) }
{
    match target {
        Goal::Variable(_, at, name) => variable(into, alloc, at.offset, context.function, name),
        Goal::Target(value) => expression(into, alloc, value, &Use::Assigned, context),
    }
}

#[cycle(collect)]
#[tactic(auto, using(crate::proofs::Walks::walks))]
fn declarations(
    into: &mut Occurrences,
    alloc: Global,
    all: &[Declaration],
    context: Context,
) -> Result<(), NoMemory>
    ensures { OnOk result (into.new ≡ collectors.collect_all (map occurrences.declaration_occurrences all.now) context into.old) }
{
    for one in all {
        declaration(into, alloc, one, context)?;
    }
    Ok(())
}

#[cycle(collect)]
#[tactic(auto, using(crate::proofs::Equations::declarations))]
fn declaration(
    into: &mut Occurrences,
    alloc: Global,
    one: &Declaration,
    context: Context,
) -> Result<(), NoMemory>
    ensures { OnOk result (into.new ≡ occurrences.declaration_occurrences one.now context into.old) }
{
    variable(into, alloc, one.at.offset, context.function, &one.name)?;
    optional(into, alloc, &one.value, context)
}

/// The occurrences of a file, in the order of its tokens.
pub fn file_occurrences(alloc: Global, tree: &FileTree) -> Result<Items<Occurrence>, NoMemory>
    ensures { IfOk result (λ w. w ≡ occurrences.file_occurrences tree.now) }
{
    let mut into = Occurrences {
        all: Items::create(alloc),
        begun: 0,
    };
    add(&mut into, alloc, OccurrenceKind::Given, 0, 0, "module")?;
    add(&mut into, alloc, OccurrenceKind::Given, 0, 0, "exports")?;
    statements(&mut into, alloc, tree.items.as_slice(), inside(0))?;
    let Occurrences { all, begun: _ } = into;
    Ok(all)
}
