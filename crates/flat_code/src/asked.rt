//! Passes that are run where they are asked for.
ghost use Rattle.std.specs.Prelude.{◌≡◌, IfOk};
ghost use Rattle.node_form.specs.Fits.{Fits};
ghost use Rattle.pass_fits.specs.of_fuse_contract.Contracting.{contracted};
ghost use Rattle.pass_fits.specs.of_fuse_contract.Fusing.{fused};
ghost use Rattle.comm_combine.specs.Merge.{neighbours_merged};
ghost use Rattle.comm_combine.specs.Repeats.{repeats_dropped};
ghost use Rattle.comm_early.specs.Send.{sent_early};
ghost use Rattle.flat_code.specs.Passes.{if_asked, improved, settled};

use comm_combine::{drop_repeats, merge_neighbours};
use comm_early::send_early;
use node_form::Tables;
use pass_fits::fuse_contract::{contract, fuse};
use std::alloc::{AllocError, Global};
use zpl_claims::Options;

/// Flat tables, which fit, with their neighbouring loops fused, and arrays as cells.
pub fn settle(alloc: Global, tables: Tables, options: &Options) -> Result<Tables, AllocError>
    requires { Fits tables }
    ensures { IfOk result (λ made. made ≡ settled options.now tables) }
{
    let joined = fuse_if(alloc, tables, options.fuse)?;
    contract_if(alloc, joined, options.contract)
}

/// A plan without repeats, with its neighbours merged and its exchanges started early.
pub fn improve(
    alloc: Global,
    plan: Tables,
    options: &Options,
    links: Option<u32>,
) -> Result<Tables, AllocError>
    ensures { IfOk result (λ made. made ≡ improved options.now links plan) }
{
    let new = drop_if(alloc, plan, options.redundant)?;
    let merged = merge_if(alloc, new, options.merge)?;
    send_if(alloc, merged, links, options.early)
}

fn fuse_if(alloc: Global, tables: Tables, asked: bool) -> Result<Tables, AllocError>
    requires { Fits tables }
    ensures { IfOk result (λ made. made ≡ if_asked asked fused tables) }
{
    if asked {
        return fuse(alloc, tables);
    }
    Ok(tables)
}

fn contract_if(alloc: Global, tables: Tables, asked: bool) -> Result<Tables, AllocError>
    ensures { IfOk result (λ made. made ≡ if_asked asked contracted tables) }
{
    if asked {
        return contract(alloc, tables);
    }
    Ok(tables)
}

fn drop_if(alloc: Global, plan: Tables, asked: bool) -> Result<Tables, AllocError>
    ensures { IfOk result (λ made. made ≡ if_asked asked repeats_dropped plan) }
{
    if asked {
        return drop_repeats(alloc, plan);
    }
    Ok(plan)
}

fn merge_if(alloc: Global, plan: Tables, asked: bool) -> Result<Tables, AllocError>
    ensures { IfOk result (λ made. made ≡ if_asked asked neighbours_merged plan) }
{
    if asked {
        return merge_neighbours(alloc, plan);
    }
    Ok(plan)
}

fn send_if(
    alloc: Global,
    plan: Tables,
    links: Option<u32>,
    asked: bool,
) -> Result<Tables, AllocError>
    ensures { IfOk result (λ made. made ≡ if_asked asked (sent_early links) plan) }
{
    if asked {
        return send_early(alloc, plan, links);
    }
    Ok(plan)
}
