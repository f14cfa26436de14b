//! What is known of the declarations so far: each is computed over those that stand earlier.
ghost use Rattle.std.specs.Prelude.{◌≡◌, All, IfErr, OnOk, map};
ghost use Rattle.zpl_parts.specs.of_zpl_binding.Constants.{config_value};
ghost use Rattle.zpl_parts.specs.of_zpl_binding.Declarations.{nothing_known, with_all, with_config};
ghost use Rattle.zpl_parts.specs.of_zpl_binding.Declarations.{with_constant, with_decl, with_direction};
ghost use Rattle.zpl_parts.specs.of_zpl_binding.Declarations.{with_region, with_value};
ghost use Rattle.zpl_parts.specs.of_zpl_binding.Outcome.{Gives};
ghost use Rattle.zpl_parts.specs.of_zpl_binding.Settings.{setting_of};
ghost use Rattle.zpl_tree.specs.View.{decl_of, define_of, direction_of, name_of};
ghost use Rattle.zpl_tree.specs.View.{region_of as seen_region};
ghost use Rattle.zpl_bind.specs.declared.faults.BindFault.TheVariants.{NoMemory};
ghost use Rattle.zpl_bind.specs.Fault.{Computes, IsAmong};
ghost use Rattle.zpl_bind.specs.Few.{IsFew, IsFewDecl};
ghost use Rattle.zpl_bind.specs.Known.{IsBuilt, IsKnown, adds_direction, adds_region};
ghost use Rattle.zpl_bind.specs.Known.{known_failures, known_in, settings_in};
ghost use Rattle.zpl_bind.specs.Tables.{IsTable, computed, listed};
ghost use Rattle.zpl_parts.specs.of_zpl_binding.Bound.{IsVector};

use crate::faults::BindFault;
use crate::numbers::value_in;
use crate::regions::region_of;
use crate::tables::Table;
use crate::values::value_of;
use crate::vectors::vector_of;
use std::alloc::Global;
use zpl_region::{Region, Vec3};
use zpl_tree::{Decl, Define, DirDef, Name, RegionDef};

/// The values of configs and constants, the regions and the directions that were computed.
#[derive(Drop)]
pub struct Known<'a> {
    pub values: Table<'a, i64>,
    pub regions: Table<'a, Region>,
    pub directions: Table<'a, Vec3>,
}

/// The texts that settings give to names.
pub type Texts<'a> = Table<'a, &'a [u8]>;

/// The value of a config: that of its setting, or its default, which isn't computed where it is
/// set.
fn config_value(
    values: &Table<'_, i64>,
    texts: &Texts<'_>,
    config: &Define<'_>,
) -> Result<i64, BindFault>
    requires values { IsTable values.now }
    requires texts { IsTable texts.now }
    ensures { Computes result (config_value
        (setting_of (settings_in texts.now) config.now.name.text.now) (computed (listed values.now))
        (define_of config.now)) }
{
    match texts.find(config.name.text) {
        None => value_of(values, config.value),
        Some(text) => match value_in(&config.base, text) {
            Some(value) => Ok(value),
            None => Err(BindFault::ConfigType),
        },
    }
}

impl<'a> Known<'a> {
    /// Nothing. It takes no memory.
    pub fn new(alloc: Global) -> Known<'a>
        ensures known { IsKnown result }
        ensures nothing { known_in result ≡ nothing_known }
    {
        Known {
            values: Table::new(alloc),
            regions: Table::new(alloc),
            directions: Table::new(alloc),
        }
    }

    fn add_value(&mut self, name: &Name<'a>, value: i64) -> Result<(), BindFault>
        requires { IsKnown self.old }
        ensures known { OnOk result (IsKnown self.new) }
        ensures ok { OnOk result (known_in self.new ≡
            with_value (known_in self.old) (name_of name.now) (Gives value)) }
        ensures err { IfErr result (λ fault. fault ≡ NoMemory) }
    {
        self.values.add(name.text, value)?;
        Ok(())
    }

    fn add_region(&mut self, name: &Name<'a>, region: Region) -> Result<(), BindFault>
        requires known { IsKnown self.old }
        requires built { IsBuilt region }
        ensures known { OnOk result (IsKnown self.new) }
        ensures ok { OnOk result (known_in self.new ≡
            adds_region (known_in self.old) (name_of name.now) (Gives region)) }
        ensures err { IfErr result (λ fault. fault ≡ NoMemory) }
    {
        self.regions.add(name.text, region)?;
        Ok(())
    }

    fn add_direction(&mut self, name: &Name<'a>, vector: Vec3) -> Result<(), BindFault>
        requires known { IsKnown self.old }
        requires vector { IsVector vector }
        ensures known { OnOk result (IsKnown self.new) }
        ensures ok { OnOk result (known_in self.new ≡
            adds_direction (known_in self.old) (name_of name.now) (Gives vector)) }
        ensures err { IfErr result (λ fault. fault ≡ NoMemory) }
    {
        self.directions.add(name.text, vector)?;
        Ok(())
    }

    fn add_configs(&mut self, texts: &Texts<'_>, configs: &[Define<'a>]) -> Result<(), BindFault>
        requires known { IsKnown self.old }
        requires texts { IsTable texts.now }
        ensures known { OnOk result (IsKnown self.new) }
        ensures ok { OnOk result (known_in self.new ≡ with_all (with_config (settings_in texts.now))
            (known_in self.old) (map define_of configs.now)) }
        ensures err { IfErr result (λ fault. IsAmong fault (known_failures
            (with_all (with_config (settings_in texts.now)) (known_in self.old)
            (map define_of configs.now)))) }
    {
        for config in configs {
            let value = config_value(&self.values, texts, config)?;
            self.add_value(&config.name, value)?;
        }
        Ok(())
    }

    fn add_constants(&mut self, constants: &[Define<'a>]) -> Result<(), BindFault>
        requires { IsKnown self.old }
        ensures known { OnOk result (IsKnown self.new) }
        ensures ok { OnOk result (known_in self.new ≡ with_all with_constant
            (known_in self.old) (map define_of constants.now)) }
        ensures err { IfErr result (λ fault. IsAmong fault (known_failures
            (with_all with_constant (known_in self.old) (map define_of constants.now)))) }
    {
        for constant in constants {
            let value = value_of(&self.values, constant.value)?;
            self.add_value(&constant.name, value)?;
        }
        Ok(())
    }

    fn add_regions(&mut self, regions: &[RegionDef<'a>]) -> Result<(), BindFault>
        requires known { IsKnown self.old }
        requires few { All (λ region. IsFew (seen_region region).body) regions.now }
        ensures known { OnOk result (IsKnown self.new) }
        ensures ok { OnOk result (known_in self.new ≡ with_all with_region
            (known_in self.old) (map seen_region regions.now)) }
        ensures err { IfErr result (λ fault. IsAmong fault (known_failures
            (with_all with_region (known_in self.old) (map seen_region regions.now)))) }
    {
        for region in regions {
            let value = region_of(self, region)?;
            self.add_region(&region.name, value)?;
        }
        Ok(())
    }

    fn add_directions(&mut self, directions: &[DirDef<'a>]) -> Result<(), BindFault>
        requires { IsKnown self.old }
        ensures known { OnOk result (IsKnown self.new) }
        ensures ok { OnOk result (known_in self.new ≡ with_all with_direction
            (known_in self.old) (map direction_of directions.now)) }
        ensures err { IfErr result (λ fault. IsAmong fault (known_failures
            (with_all with_direction (known_in self.old) (map direction_of directions.now)))) }
    {
        for direction in directions {
            let vector = vector_of(&self.values, direction.parts)?;
            self.add_direction(&direction.name, vector)?;
        }
        Ok(())
    }

    fn add_decl(&mut self, texts: &Texts<'_>, decl: &Decl<'a>) -> Result<(), BindFault>
        requires known { IsKnown self.old }
        requires texts { IsTable texts.now }
        requires few { IsFewDecl (decl_of decl.now) }
        ensures known { OnOk result (IsKnown self.new) }
        ensures ok { OnOk result (known_in self.new ≡
            with_decl (settings_in texts.now) (known_in self.old) (decl_of decl.now)) }
        ensures err { IfErr result (λ fault. IsAmong fault (known_failures
            (with_decl (settings_in texts.now) (known_in self.old) (decl_of decl.now)))) }
    {
        match decl {
            Decl::Config(configs) => self.add_configs(texts, configs),
            Decl::Constant(constants) => self.add_constants(constants),
            Decl::Regions(regions) => self.add_regions(regions),
            Decl::Directions(directions) => self.add_directions(directions),
            Decl::Vars(_) | Decl::Procedure(_) => Ok(()),
        }
    }

    /// Adds what declarations come to, one after the other.
    pub fn add_decls(&mut self, texts: &Texts<'_>, decls: &[Decl<'a>]) -> Result<(), BindFault>
        requires known { IsKnown self.old }
        requires texts { IsTable texts.now }
        requires few { All (λ decl. IsFewDecl (decl_of decl)) decls.now }
        ensures known { OnOk result (IsKnown self.new) }
        ensures ok { OnOk result (known_in self.new ≡ with_all (with_decl (settings_in texts.now))
            (known_in self.old) (map decl_of decls.now)) }
        ensures err { IfErr result (λ fault. IsAmong fault (known_failures
            (with_all (with_decl (settings_in texts.now)) (known_in self.old)
            (map decl_of decls.now)))) }
    {
        for decl in decls {
            self.add_decl(texts, decl)?;
        }
        Ok(())
    }
}
