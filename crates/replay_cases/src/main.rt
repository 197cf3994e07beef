// Replays small traces over images in memory, and prints what is told and what the images hold after.
#![tactic(auto)]

mod cases;

fn main(rt: HostRuntime) -> anyhow::Result<()> {
    cases::show_all(&rt)
}
