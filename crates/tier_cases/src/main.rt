// Runs hand-built levels at their edges and prints what they answer.
#![tactic(auto)]

mod levels;
mod refusals;

fn run(rt: &HostRuntime) -> anyhow::Result<()> {
    levels::capacities(rt)?;
    levels::demotions(rt)?;
    refusals::defect_below(rt)?;
    refusals::stopped_sync(rt)?;
    Ok(())
}

fn main(rt: HostRuntime) -> anyhow::Result<()> {
    run(&rt)
}
