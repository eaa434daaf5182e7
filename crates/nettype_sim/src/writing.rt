// The texts of a slot and of the end.
ghost use Rattle.std.specs.Prelude.{◌≡◌, ◌++◌, ◌∷◌, [], ◌<◌, OnOk, IfOk, length, None, decimal, codes};
ghost use Rattle.nt_design.specs.Plain.{IsPlain};
ghost use Rattle.nt_design.specs.WellFormed.{IsDesign};
ghost use Rattle.nt_machine.specs.Plain.{IsPlainState};
ghost use Rattle.nt_semantics.specs.StateFits.{IsStateOf};
ghost use Rattle.nt_semantics.specs.Execution.{observation_of};
ghost use Rattle.nt_semantics.specs.Texts.{slot_text, end_text};
ghost use Rattle.nt_value.specs.Texts.{value_text};
ghost use Rattle.nettype_sim.specs.Nets.{net_lines};

use nt_design::{Design, Net};
use nt_machine::State;
use nt_value::{Text, Value, print};
use std::alloc::AllocError;

fn print_net(net: &Net, value: &Value, out: &mut Text) -> Result<(), AllocError>
    ensures { OnOk result (out.new ≡ out.old ++ (net.now.name ++ (codes " = " ++ (value_text value.now ++ (10 ∷ []))))) }
{
    out.push_bytes(net.name.items())?;
    out.push_bytes(b" = ")?;
    print(value, out)?;
    out.push(b'\n')?;
    Ok(())
}

fn print_nets(design: &Design, state: &State, out: &mut Text) -> Result<(), AllocError>
    requires design { IsDesign design.now }
    requires plain_design { IsPlain design.now }
    requires state { IsStateOf design.now state.now }
    requires plain { IsPlainState state.now }
    ensures { OnOk result (out.new ≡ out.old ++ net_lines design.now (observation_of state.now) (length design.now.nets)) }
{
    for (index, net) in design.nets.as_slice().iter().enumerate() {
        print_net(net, state.net(index as u32), out)?;
    }
    Ok(())
}

fn print_moment(time: u64, out: &mut Text) -> Result<(), AllocError>
    ensures { OnOk result (out.new ≡ out.old ++ (35 ∷ (decimal time ++ (10 ∷ [])))) }
{
    out.push(b'#')?;
    out.push_number(time)?;
    out.push(b'\n')?;
    Ok(())
}

/// Adds the first slot, with all nets.
///
/// # Errors
///
/// `AllocError` alone.
pub fn print_slot(design: &Design, state: &State, out: &mut Text) -> Result<(), AllocError>
    requires design { IsDesign design.now }
    requires plain_design { IsPlain design.now }
    requires state { IsStateOf design.now state.now }
    requires plain { IsPlainState state.now }
    ensures { OnOk result (out.new ≡ out.old ++ slot_text design.now None (observation_of state.now)) }
{
    print_moment(state.time(), out)?;
    print_nets(design, state, out)?;
    Ok(())
}

/// Adds the end of a run to this time limit.
///
/// # Errors
///
/// `AllocError` alone.
pub fn print_end(until: u64, out: &mut Text) -> Result<(), AllocError>
    ensures { OnOk result (out.new ≡ out.old ++ end_text until) }
{
    out.push_bytes(b"end ")?;
    out.push_number(until)?;
    out.push(b'\n')?;
    Ok(())
}
