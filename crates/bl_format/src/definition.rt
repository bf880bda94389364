//! Writers of the parts in front of the commands.
ghost use Rattle.bl_format.specs.Image.{global, memory, param, function, export, demand, demand_fields};
ghost use Rattle.bl_format.specs.WriterAnswers.{FunctionFits, HasLength, MemoryFits};

use crate::rising::{length_of_numbered, write_numbered};
use crate::write::{Write, length_of_u32, length_of_u64, write_byte, write_u64};
use bl_base::NoMemory;
use bl_program::{Demand, ExportDef, FunctionDef, GlobalDef, MemoryDef, ParamDef};

impl Write for GlobalDef {
    ghost written = { global };

    ghost fits = { λ _. Unit {0} };

    fn write(&self, to: &mut Vec<u8>) -> Result<(), NoMemory> {
        self.kind.write(to)?;
        self.label.write(to)?;
        write_u64(self.first, to)?;
        Ok(())
    }

    fn spelled_length(&self) -> u64 {
        let kind = self.kind.spelled_length();
        let label = self.label.spelled_length();
        let first = length_of_u64(self.first);
        kind.saturating_add(label).saturating_add(first)
    }
}

impl Write for ParamDef {
    ghost written = { param };

    ghost fits = { λ _. Unit {0} };

    fn write(&self, to: &mut Vec<u8>) -> Result<(), NoMemory> {
        self.kind.write(to)?;
        self.label.write(to)?;
        Ok(())
    }

    fn spelled_length(&self) -> u64 {
        let kind = self.kind.spelled_length();
        kind.saturating_add(self.label.spelled_length())
    }
}

impl Write for FunctionDef {
    ghost written = { function };

    ghost fits = { FunctionFits };

    fn write(&self, to: &mut Vec<u8>) -> Result<(), NoMemory> {
        self.params.write(to)?;
        self.results.write(to)?;
        self.vars.write(to)?;
        self.length.write(to)?;
        Ok(())
    }

    fn spelled_length(&self) -> u64 {
        let params = self.params.spelled_length();
        let results = self.results.spelled_length();
        let vars = length_of_u32(self.vars);
        let length = length_of_u32(self.length);
        params
            .saturating_add(results)
            .saturating_add(vars)
            .saturating_add(length)
    }
}

impl Write for ExportDef {
    ghost written = { export };

    ghost fits = { λ _. Unit {0} };

    fn write(&self, to: &mut Vec<u8>) -> Result<(), NoMemory> {
        self.name.write(to)?;
        self.function.write(to)?;
        Ok(())
    }

    fn spelled_length(&self) -> u64 {
        let name = self.name.spelled_length();
        name.saturating_add(length_of_u32(self.function))
    }
}

impl Write for MemoryDef {
    ghost written = { memory };

    ghost fits = { MemoryFits };

    fn write(&self, to: &mut Vec<u8>) -> Result<(), NoMemory> {
        self.pages.write(to)?;
        self.reserve.write(to)?;
        self.label.write(to)?;
        write_numbered(&self.rows, to)?;
        Ok(())
    }

    fn spelled_length(&self) -> u64 {
        let pages = length_of_u32(self.pages);
        let reserve = length_of_u32(self.reserve);
        let label = self.label.spelled_length();
        let rows = length_of_numbered(&self.rows);
        pages
            .saturating_add(reserve)
            .saturating_add(label)
            .saturating_add(rows)
    }
}

/// How many bytes a demand has behind its code.
fn length_of_demand(one: Demand) -> u64
    ensures { HasLength (demand_fields one) result }
{
    match one {
        Demand::Result { function, index } => (function, index).spelled_length(),
        Demand::Global(global) => length_of_u32(global),
    }
}

impl Write for Demand {
    ghost written = { demand };

    ghost fits = { λ _. Unit {0} };

    fn write(&self, to: &mut Vec<u8>) -> Result<(), NoMemory> {
        match *self {
            Demand::Result { function, index } => {
                write_byte(0x00, to)?;
                (function, index).write(to)?;
            }
            Demand::Global(global) => {
                write_byte(0x01, to)?;
                global.write(to)?;
            }
        }
        Ok(())
    }

    fn spelled_length(&self) -> u64 {
        length_of_demand(*self).saturating_add(1)
    }
}
