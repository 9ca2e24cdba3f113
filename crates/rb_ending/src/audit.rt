ghost use Rattle.std.specs.Prelude.{◌≡◌, IfOk, IfErr, OnOk, string_bytes};
ghost use Rattle.serde_json.specs.Data.{number, put as with_member, unsigned};
ghost use Rattle.serde_json.specs.View.{members_view};
ghost use Rattle.rb_ending.specs.AuditText.{audit_json, audit_text};

use crate::broker_fault::BrokerFault;
use rb_queue::Audit;
use serde_json::{Map, Value};
use std::alloc::{AllocError, Global};

/// The counts of a run as one line: a JSON object without spaces, with its keys in alphabetical
/// order, and a line feed.
///
/// The only fault is `Memory`, if there is not enough for the line.
pub fn audit_line(alloc: Global, audit: &Audit) -> Result<String, BrokerFault>
    ensures text { IfOk result (λ line. string_bytes line ≡ audit_text audit.now) }
    ensures fault { IfErr result (λ fault. fault ≡ BrokerFault.Memory) }
{
    let mut line = audit_json(alloc, audit)?;
    line.push('\n')?;
    Ok(line)
}

// The object.
fn audit_json(alloc: Global, audit: &Audit) -> Result<String, AllocError>
    ensures { IfOk result (λ text. string_bytes text ≡ audit_json audit.now) }
{
    let mut object = Map::new(alloc);
    put_number(&mut object, alloc, "calls", audit.calls)?;
    put_number(&mut object, alloc, "cleared", audit.cleared)?;
    put_number(&mut object, alloc, "given", audit.given)?;
    put_number(&mut object, alloc, "left", audit.left)?;
    put_number(&mut object, alloc, "offered", audit.offered)?;
    put_number(&mut object, alloc, "opening", audit.opening)?;
    put_number(&mut object, alloc, "removed", audit.removed)?;
    Value::Object(object).to_string(alloc)
}

// Puts a number under a key.
fn put_number(
    object: &mut Map<String, Value>,
    alloc: Global,
    key: &str,
    value: u64,
) -> Result<(), AllocError>
    ensures { OnOk result (members_view object.new.entries
        ≡ with_member key.now (number (unsigned value)) (members_view object.old.entries)) }
{
    serde_json::put(object, alloc, key, Value::from(value))
}
