//! Examples that call the library, one after another. Each is a module of its own, which a page of docs/library quotes.
#![tactic(auto)]

use anyhow::Result;

mod desk;
mod drawing;
mod gf;
mod ops;
mod session;
mod viewers;
mod watch;

fn main(rt: HostRuntime) -> Result<()> {
    let alloc = rt.alloc();
    println!(rt; "== ops")?;
    ops::run(&rt, alloc)?;
    println!(rt; "== gf")?;
    gf::run(&rt, alloc)?;
    println!(rt; "== session")?;
    session::run(&rt, alloc)?;
    println!(rt; "== desk")?;
    desk::run(&rt, alloc)?;
    println!(rt; "== viewers")?;
    viewers::run(&rt, alloc)?;
    println!(rt; "== watch")?;
    watch::run(&rt, alloc)?;
    println!(rt; "== drawing")?;
    drawing::run(&rt, alloc)?;
    Ok(())
}
