// Runs piles and comparisons at their edges and prints what they answer.
#![tactic(auto)]

mod compares;
mod mounts;
mod plays;
mod refusals;
mod runs;
mod saves;

fn run(rt: &HostRuntime) -> anyhow::Result<()> {
    mounts::many_levels(rt)?;
    mounts::entries(rt)?;
    refusals::in_order(rt)?;
    runs::layouts(rt)?;
    saves::counts(rt)?;
    saves::marks(rt)?;
    saves::no_levels(rt)?;
    compares::sums(rt)?;
    compares::counts(rt)?;
    compares::few_sound(rt)?;
    compares::refused(rt)
}

fn main(rt: HostRuntime) -> anyhow::Result<()> {
    run(&rt)
}
