// Runs streams over the workloads and audits what they write.
#![tactic(auto)]

mod audit;
mod book;
mod crowd;
mod lines;
mod wrong;

use anyhow::anyhow;
use audit::run;
use domain::Domain;
use release::Settings;
use std::alloc::Global;
use workload::{Workload, six, two};

const SETTINGS: [Settings; 3] = [
    Settings {
        k: 4,
        delta: 100,
        beta: 16,
        mu: 8,
        rho: 16,
    },
    Settings {
        k: 8,
        delta: 255,
        beta: 64,
        mu: 32,
        rho: 64,
    },
    Settings {
        k: 2,
        delta: 20,
        beta: 4,
        mu: 2,
        rho: 4,
    },
];

// Runs the workload with each of the settings, over a domain of its own, and prints what each run came to.
fn run_each<D: Domain + Drop, F: Fn() -> anyhow::Result<D>>(
    rt: &impl Print,
    heap: Global,
    workload: Workload,
    domain: F,
) -> anyhow::Result<()>
    requires { F.IsAlwaysCallable domain }
{
    for settings in SETTINGS {
        let outcome = run(heap, domain()?, workload, settings)?;
        println!(rt; "{outcome}")?;
    }
    Ok(())
}

fn main(rt: HostRuntime) -> anyhow::Result<()> {
    let heap = rt.alloc();
    let two = || two(heap).map_err(|_| anyhow!("no taxonomy was made"));
    run_each(&rt, heap, Workload::Even, two)?;
    run_each(&rt, heap, Workload::Wide, || Ok(six()))?;
    run_each(&rt, heap, Workload::Phased, two)
}
