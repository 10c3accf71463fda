//! What is answered for a file.
ghost use Rattle.std.specs.Prelude.{◌≡◌, ◌≤◌, ◌<◌, ◌^◌, ◌++◌, codes, length, IfOk, IfSome};
ghost use Rattle.std.specs.Fmt.{decimal};
ghost use Rattle.mdg_scan.specs.Answer.{IsReadingAnswer, IsReport, refused};
ghost use Rattle.mdg_scan.specs.Form.{read_of};
ghost use Rattle.mdg_scan.specs.Lowered.{lowered};

use crate::Reply;
use crate::first::{Form, FormRefusal, flows, grow, lower, read_form, report};
use crate::reply::refused;
use mdg_base::NoMemory;
use std::alloc::Global;

// The refusal of this line.
fn refused_at(alloc: Global, number: u64) -> Result<Reply, NoMemory>
    ensures { IfOk result (λ reply. reply ≡ refused (codes "NoTree index.js:" ++ decimal number)) }
{
    let text = format!(in alloc; "NoTree index.js:{number}")?;
    refused(alloc, text.as_str())
}

// What is answered for a file in form: all flows in the least graph of its code.
fn answer_of_form(alloc: Global, form: &Form) -> Result<Reply, NoMemory>
    requires few { length form.now.functions ≤ 4096 }
    requires exported { IfSome form.now.exported (λ export. export.function < length form.now.functions) }
    ensures { IfOk result (IsReport (lowered form.now)) }
{
    let code = lower(alloc, form)?;
    let facts = grow(alloc, &code)?;
    let flows = flows(alloc, &code, &facts)?;
    report(alloc, &code, flows.as_slice())
}

/// What is answered for the bytes of the file.
pub fn answer_of_file(alloc: Global, bytes: &[u8]) -> Result<Reply, NoMemory>
    requires { length bytes.now ≤ 4096 }
    ensures { IfOk result (IsReadingAnswer (read_of bytes.now)) }
{
    match read_form(alloc, bytes) {
        Ok(form) => answer_of_form(alloc, &form),
        Err(FormRefusal::NotStrict) => refused(alloc, "NotStrict index.js"),
        Err(FormRefusal::NoTree(number)) => refused_at(alloc, number),
        Err(FormRefusal::NoMemory) => Err(NoMemory),
    }
}
