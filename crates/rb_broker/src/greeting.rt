ghost use Rattle.std.specs.Prelude.{◌≡◌, IfErr, IfOk};
ghost use Rattle.rb_broker.specs.Greeting.{sent_first};
ghost use Rattle.rb_ending.specs.declared.broker_fault.BrokerFault.TheVariants.{Memory};

use rb_ending::BrokerFault;
use std::alloc::{AllocError, Global};

/// What each client is sent first: the greeting, if there is one, and a line feed. The fault is `Memory`.
pub fn greeting_line(alloc: Global, greeting: Option<&str>) -> Result<Vec<u8>, BrokerFault>
    ensures line { IfOk result (λ line. line.items ≡ sent_first greeting.entry) }
    ensures fault { IfErr result (λ fault. fault ≡ Memory) }
{
    match sent_first(alloc, greeting) {
        Ok(line) => Ok(line),
        Err(AllocError) => Err(BrokerFault::Memory),
    }
}

fn sent_first(alloc: Global, greeting: Option<&str>) -> Result<Vec<u8>, AllocError>
    ensures { IfOk result (λ line. line.items ≡ sent_first greeting.entry) }
{
    let mut line = Vec::new(alloc);
    if let Some(text) = greeting {
        line.extend_from_slice(text.as_bytes())?;
        line.push(b'\n')?;
    }
    Ok(line)
}
