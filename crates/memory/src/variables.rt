// The variables of a run.
ghost use Rattle.std.specs.Prelude.{◌≡◌, get_or};
ghost use Rattle.model.specs.Table.{max_variables};
ghost use Rattle.model.specs.State.{tabulate};
ghost use Rattle.tables.specs.Tables.{start_in};
ghost use Rattle.memory.specs.Changes.{variables_after};

use crate::Change;
use command::numbers::VarNum;
use declared::start_of;

// The value of a variable.
pub fn variable_at(variable: &[u32], x: VarNum) -> u32
    ensures { result ≡ get_or variable.now x.0 0 }
{
    variable.get(x.0 as usize).copied().unwrap_or(0)
}

// The variables hold their starts.
pub fn fill_variables(variable: &mut [u32; 64], tables: &[u32])
    ensures { variable.new ≡ tabulate max_variables (start_in tables.now) }
{
    for x in 0..64 {
        variable[x] = start_of(tables, VarNum(x as u32));
    }
}

// The variables after a change; the value is what is stored, by index, as in `tables::cells::put`.
pub fn change_variable(variable: &mut [u32; 64], change: Change, value: u32)
    ensures { variable.new ≡ variables_after value variable.old change }
{
    if let Change::Store(x) = change {
        let i = x.0 as usize;
        if i < variable.len() {
            variable[i] = value;
        }
    }
}
