// One case put to both calculations.
use crate::answer::{Answer, Refusal};
use crate::bench::Bench;
use crate::case::Case;
use crate::library::answer_of;
use crate::questions::Sides;
use crate::second::network::Kind;
use crate::second::whole::answer;
use anyhow::anyhow;
use fabric::fabric::Fabric;
use listed::Listed;
use mesh::mesh::Mesh;
use table::fault::LoadFault;

fn print_answer(rt: &HostRuntime, answer: &Answer) -> anyhow::Result<()> {
    match answer {
        Ok(rows) => {
            for row in rows.iter() {
                println!(rt; "{row}")?;
            }
        }
        Err(refusal) => println!(rt; "{refusal}")?,
    }
    Ok(())
}

impl Bench<'_> {
    // The fault of a fabric that cannot be made; else the fabric is asked its questions, and the table is loaded
    // with it.
    fn ask_and_load<F: Fabric + Drop>(
        &mut self,
        case: &Case,
        made: Result<F, LoadFault>,
    ) -> anyhow::Result<Answer> {
        let fabric = match made {
            Ok(fabric) => fabric,
            Err(fault) => return Ok(Err(Refusal::try_from(fault)?)),
        };
        let sides = Sides {
            ours: case.network,
            theirs: &fabric,
        };
        sides.ask_all(self)?;
        answer_of(self.rt.alloc(), case, &fabric)
    }

    // The library's answer.
    fn first_answer(&mut self, case: &Case) -> anyhow::Result<Answer> {
        let file = case.network.file.bytes;
        match case.network.kind {
            Kind::Mesh => self.ask_and_load(case, Mesh::from_file(file)),
            Kind::Listed => {
                let made = Listed::from_file(self.rt.alloc(), file);
                self.ask_and_load(case, made)
            }
        }
    }

    fn print_both(&self, library: &Answer, second: &Answer) -> anyhow::Result<()> {
        let number = self.tally.tables();
        println!(self.rt; "table {number}: the library says")?;
        print_answer(self.rt, library)?;
        println!(self.rt; "and the second calculation")?;
        print_answer(self.rt, second)
    }

    // Counts a case and tells its answer, if both calculations agree.
    pub fn compare(&mut self, case: &Case) -> anyhow::Result<Answer> {
        let second = answer(self.rt.alloc(), case)?;
        self.tally.note(case, &second)?;
        let library = self.first_answer(case)?;
        if library == second {
            return Ok(library);
        }
        self.print_both(&library, &second)?;
        Err(anyhow!("the two calculations differ"))
    }
}
