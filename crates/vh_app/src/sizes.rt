ghost use Rattle.std.specs.Prelude.{◌≡◌, ◌+◌, IfOk, map};
ghost use Rattle.vh_app.specs.Layout.{size_of, sizes_of};
ghost use Rattle.vh_app_script.specs.Tree.{commands};
ghost use Rattle.vh_app_script.specs.Views.{command_tree};

use vh_app_script::Command;
use vh_base::NoMemory;

// So many steps and so many more, where they can be numbered.
pub(crate) fn plus(steps: usize, more: usize) -> Result<usize, NoMemory>
    ensures { IfOk result (λ n. n ≡ steps + more) }
{
    match steps.checked_add(more) {
        None => Err(NoMemory),
        Some(sum) => Ok(sum),
    }
}

// How many steps a command has.
#[cycle(size)]
fn size_of(command: &Command<'_>) -> Result<usize, NoMemory>
    ensures { IfOk result (λ n. n ≡ size_of (command_tree command.now)) }
{
    match command {
        Command::Ask(_, _) | Command::Set(_, _, _) | Command::Return => Ok(1),
        Command::If { holds, fails, .. } => {
            let first = sizes_of(holds.as_slice())?;
            let second = sizes_of(fails.as_slice())?;
            let both = plus(first, second)?;
            plus(both, 2)
        }
        Command::While { body, .. } => {
            let inside = sizes_of(body.as_slice())?;
            plus(inside, 2)
        }
    }
}

// How many the commands in a row have.
#[cycle(size)]
pub(crate) fn sizes_of(all: &[Command<'_>]) -> Result<usize, NoMemory>
    ensures { IfOk result (λ n. n ≡ sizes_of (commands (map command_tree all.now))) }
{
    let mut sum = 0;
    for command in all {
        let size = size_of(command)?;
        sum = plus(sum, size)?;
    }
    Ok(sum)
}
