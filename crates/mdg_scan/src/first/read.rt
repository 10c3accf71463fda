//! Reads a file of the first form.
ghost use Rattle.std.specs.Prelude.{◌≡◌, ◌≤◌, ◌<◌, ◌+◌, ◌^◌, [], IfOk, IfSome, length};
ghost use Rattle.std.specs.Option.{option_copied, option_map_or};
ghost use Rattle.std.specs.Str.{IsAscii, bytes_eq};
ghost use Rattle.mdg_scan.specs.Form.{Tells, end_of, exported_of, is_declared, next_of, no_tree, read_of, rest_of};
ghost use Rattle.mdg_scan.specs.FormLines.{exports_line};
ghost use Rattle.mdg_scan.specs.Lines.{lines_of};

use super::form::{Export, Form, FormFunction, FormRefusal};
use super::line::{FunctionLine, after, before, next_line, read_function_line};
use mdg_base::{Items, NoMemory, Text};
use std::alloc::Global;
use std::str;

// A text of its own of these bytes.
fn text_of(alloc: Global, bytes: &[u8]) -> Result<Text, NoMemory>
    requires { IsAscii bytes.now }
    ensures { IfOk result (λ text. text ≡ bytes.now) }
{
    match str::from_utf8(bytes) {
        Ok(text) => Text::of(alloc, text),
        Err(_) => unreachable!(),
    }
}

fn added_text_of(alloc: Global, bytes: Option<&[u8]>) -> Result<Option<Text>, NoMemory>
    requires { IfSome (option_copied bytes) IsAscii }
    ensures { IfOk result (λ text. text ≡ option_copied bytes.entry) }
{
    match bytes {
        Some(bytes) => Ok(Some(text_of(alloc, bytes)?)),
        None => Ok(None),
    }
}

// Some function has the name.
fn is_declared(functions: &[FormFunction], name: &[u8]) -> bool
    ensures { result ≡ is_declared functions.now name.now }
{
    functions
        .iter()
        .any(|function| function.name.as_str().as_bytes() == name)
}

// The line exports the function with this name.
fn is_export_of(line: &[u8], name: &[u8]) -> bool
    ensures { result ≡ bytes_eq line.now (exports_line name.now) }
{
    let Some(rest) = after(line, b"module.exports = ") else {
        return false;
    };
    let Some(exported) = before(rest, b";") else {
        return false;
    };
    exported == name
}

// The place of the function that this line exports.
fn read_export(line: &[u8], functions: &[FormFunction]) -> Option<usize>
    ensures value { result ≡ exported_of functions.now line.now }
    ensures within { IfSome result (λ at. at < length functions.now) }
{
    functions.iter().position(|function| is_export_of(line, function.name.as_str().as_bytes()))
}

// A function of its own with these parts.
fn owned_function(alloc: Global, found: FunctionLine, number: u32) -> Result<FormFunction, NoMemory>
    requires name { IsAscii found.name.now }
    requires parameter { IsAscii found.parameter.now }
    requires text { IfSome (option_copied found.text) IsAscii }
    ensures { IfOk result (λ function. function ≡ record {
      name = found.entry.name.now;
      parameter = found.entry.parameter.now;
      text = option_copied found.entry.text;
      line = number;
    }) }
{
    Ok(FormFunction {
        name: text_of(alloc, found.name)?,
        parameter: text_of(alloc, found.parameter)?,
        text: added_text_of(alloc, found.text)?,
        line: number,
    })
}

// The function that this line declares after the earlier ones.
fn read_function(
    alloc: Global,
    line: &[u8],
    number: u32,
    earlier: &[FormFunction],
) -> Result<Option<FormFunction>, NoMemory>
    ensures { IfOk result (λ function. function ≡ next_of earlier.now number line.now) }
{
    let Some(found) = read_function_line(line) else {
        return Ok(None);
    };
    if is_declared(earlier, found.name) {
        return Ok(None);
    }
    Ok(Some(owned_function(alloc, found, number)?))
}

// What is read where this line declares no function, and these lines come after it.
fn read_last(
    functions: Items<FormFunction>,
    line: &[u8],
    number: u32,
    rest: &[u8],
) -> Result<Form, FormRefusal>
    requires few { length functions < 2 ^ 31 }
    ensures told { Tells result (option_map_or (end_of functions number (lines_of rest.now)) (exported_of functions line.now) (no_tree number)) }
    ensures same { IfOk result (λ form. form.functions ≡ functions) }
    ensures exported { IfOk result (λ form. IfSome form.exported (λ export. export.function < length form.functions)) }
{
    let Some(at) = read_export(line, functions.as_slice()) else {
        return Err(FormRefusal::NoTree(u64::from(number)));
    };
    if !rest.is_empty() {
        return Err(FormRefusal::NoTree(u64::from(number) + 1));
    }
    Ok(Form {
        functions,
        exported: Some(Export {
            function: at as u32,
            line: number,
        }),
    })
}

// What is read after the directive.
fn read_lines(alloc: Global, bytes: &[u8]) -> Result<Form, FormRefusal>
    requires { length bytes.now ≤ 4096 }
    ensures told { Tells result (rest_of [] 2 (lines_of bytes.now)) }
    ensures few { IfOk result (λ form. length form.functions ≤ 4096) }
    ensures exported { IfOk result (λ form. IfSome form.exported (λ export. export.function < length form.functions)) }
{
    let mut functions = Items::create(alloc);
    let mut rest = bytes;
    let mut number = 2;
    while !rest.is_empty() {
        let (line, later) = next_line(rest);
        let Some(function) = read_function(alloc, line, number, functions.as_slice())? else {
            return read_last(functions, line, number, later);
        };
        functions.push(function)?;
        rest = later;
        number += 1;
    }
    Ok(Form {
        functions,
        exported: None,
    })
}

/// Reads a file of the first form.
pub fn read_form(alloc: Global, bytes: &[u8]) -> Result<Form, FormRefusal>
    requires { length bytes.now ≤ 4096 }

    // The result is what is defined to be read, unless memory was refused.
    ensures told { Tells result (read_of bytes.now) }
    ensures few { IfOk result (λ form. length form.functions ≤ 4096) }
    ensures exported { IfOk result (λ form. IfSome form.exported (λ export. export.function < length form.functions)) }
{
    if bytes.is_empty() {
        return Err(FormRefusal::NotStrict);
    }
    let (line, rest) = next_line(bytes);
    if line != b"'use strict';".as_slice() {
        return Err(FormRefusal::NotStrict);
    }
    read_lines(alloc, rest)
}
