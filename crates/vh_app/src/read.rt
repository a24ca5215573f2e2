ghost use Rattle.std.specs.Prelude.{◌<◌, length};
ghost use Rattle.vh_app.specs.Reading.{app_of};
ghost use Rattle.vh_app.specs.Views.{IsAnswer};

use crate::laying::script_of;
use crate::script::Script;
use std::alloc::Global;
use vh_app_script::{ScriptFault, read_script};
use vh_base::{NoMemory, Short};

/// The script that the bytes are, in front of which scripts of these names stand; or its first
/// fault, `A1` to `A5`, and where that stands: line and column from 1, in bytes; the file is 0. Of
/// two faults at one place the least is answered.
pub fn read_app(alloc: Global, bytes: &[u8], earlier: &Vec<Short>) -> Result<Script, ScriptFault>
    requires { length bytes.now < 2147483648 }
    // Want of memory is the one free answer.
    ensures { IsAnswer (app_of bytes.now earlier.now.items) result }
{
    let app = read_script(alloc, bytes, earlier)?;
    match script_of(alloc, &app) {
        Ok(script) => Ok(script),
        Err(NoMemory) => Err(ScriptFault::NoMemory),
    }
}
