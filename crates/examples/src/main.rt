// Runs the devices at their edges and prints what they answer; the worked examples are proved beside it.
#![tactic(auto)]

mod devices;
mod proved;
mod restores;

fn run(rt: &HostRuntime) -> anyhow::Result<()> {
    let examples = proved::worked_examples();
    println!(rt; "worked examples proved: {examples}")?;
    devices::lengths(rt)?;
    devices::over_long(rt)?;
    devices::units(rt)?;
    devices::defects(rt)?;
    restores::onto_image(rt)?;
    restores::onto_defect(rt)?;
    restores::onto_stripe(rt)?;
    Ok(())
}

fn main(rt: HostRuntime) -> anyhow::Result<()> {
    run(&rt)
}
