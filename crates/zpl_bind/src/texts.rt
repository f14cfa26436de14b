//! Settings, tested against the configs of a program.
ghost use Rattle.std.specs.Prelude.{◌≡◌, ◌++◌, [], IfErr, IfOk, OnOk, flat_map, map};
ghost use Rattle.zpl_tree.specs.View.{base_type_of, decl_of, define_of};
ghost use Rattle.zpl_bind.specs.Fault.{IsAmong};
ghost use Rattle.zpl_bind.specs.Known.{settings_in};
ghost use Rattle.zpl_bind.specs.Lists.{settings_of};
ghost use Rattle.zpl_bind.specs.Tables.{IsTable, found, listed};
ghost use Rattle.zpl_bind.specs.Texts.{all_text_faults, bases_of, config_bases, type_fault};

use crate::faults::BindFault;
use crate::known::Texts;
use crate::numbers::value_in;
use crate::settings::Settings;
use crate::tables::Table;
use std::alloc::{AllocError, Global};
use zpl_tree::{Base, Decl, Define};

/// The types of configs.
pub type Bases<'a> = Table<'a, Base<'a>>;

/// The types of the configs that are declared.
pub fn configs_of<'a>(alloc: Global, decls: &[Decl<'a>]) -> Result<Bases<'a>, AllocError>
    ensures table { IfOk result IsTable }
    ensures bases { IfOk result (λ bases. bases_of (listed bases)
        ≡ flat_map config_bases (map decl_of decls.now)) }
{
    let mut bases = Table::new(alloc);
    for decl in decls {
        add_configs(&mut bases, decl)?;
    }
    Ok(bases)
}

fn add_configs<'a>(bases: &mut Bases<'a>, decl: &Decl<'a>) -> Result<(), AllocError>
    requires { IsTable bases.old }
    ensures table { OnOk result (IsTable bases.new) }
    ensures bases { OnOk result (bases_of (listed bases.new)
        ≡ bases_of (listed bases.old) ++ config_bases (decl_of decl.now)) }
{
    match decl {
        Decl::Config(configs) => add_each(bases, configs),
        _ => Ok(()),
    }
}

fn add_each<'a>(bases: &mut Bases<'a>, configs: &[Define<'a>]) -> Result<(), AllocError>
    requires { IsTable bases.old }
    ensures table { OnOk result (IsTable bases.new) }
    ensures bases { OnOk result (bases_of (listed bases.new) ≡ bases_of (listed bases.old)
        ++ map (λ config. (config.name.text, config.base)) (map define_of configs.now)) }
{
    for config in configs {
        bases.add(config.name.text, config.base)?;
    }
    Ok(())
}

/// The texts that settings give to configs, where nothing is wrong with them.
pub fn texts_of<'a>(
    alloc: Global,
    settings: &'a Settings,
    bases: &Bases<'_>,
) -> Result<Texts<'a>, BindFault>
    requires { IsTable bases.now }
    ensures table { IfOk result IsTable }
    ensures texts { IfOk result (λ texts. settings_in texts ≡ settings_of settings.now) }
    ensures ok { OnOk result (all_text_faults (bases_of (listed bases.now))
        (settings_of settings.now) ≡ []) }
    ensures err { IfErr result (λ fault. IsAmong fault (all_text_faults
        (bases_of (listed bases.now)) (settings_of settings.now))) }
{
    let mut texts = Table::new(alloc);
    for pair in settings.pairs() {
        let name = pair.0.as_slice();
        let text = pair.1.as_slice();
        if texts.find(name).is_some() {
            return Err(BindFault::TwiceSet);
        }
        test_text(bases, name, text)?;
        texts.add(name, text)?;
    }
    Ok(texts)
}

/// Tests whether a name is a config's, and a text a value of its type.
fn test_text(bases: &Bases<'_>, name: &[u8], text: &[u8]) -> Result<(), BindFault>
    requires { IsTable bases.now }
    ensures ok { OnOk result (type_fault (found (bases_of (listed bases.now)) name.now) text.now
        ≡ []) }
    ensures err { IfErr result (λ fault. IsAmong fault
        (type_fault (found (bases_of (listed bases.now)) name.now) text.now)) }
{
    match bases.find(name) {
        None => Err(BindFault::UnknownConfig),
        Some(base) => match value_in(&base, text) {
            Some(_) => Ok(()),
            None => Err(BindFault::ConfigType),
        },
    }
}
