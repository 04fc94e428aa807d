// Playing a script, line by line.
use super::write::{write_answer, write_dump};
use desk::answer::{Told, Trouble};
use desk::book::Book;
use desk::layered::Desk;
use desk::runs::{Runs, kept_run, make_runs};
use makes::buffered::Buffered;
use makes::probe::Probe;
use makes::through::Through;
use memory::Settle;
use script::line::{Keeps, Kind, Line, Probing, Setting};
use script::reader::Script;
use script::wrong::{Mistake, Wrong};
use std::alloc::Global;
use std::io::{self, BufRead, Write};

// Where lines come from and answers go, the kind of key named last, and the first line that is no call.
#[derive(Drop)]
pub struct Console<R, W> {
    pub alloc: Global,
    pub script: Script<R>,
    pub out: W,
    pub kind: Option<Kind>,
    pub mistake: Option<Mistake>,
}

impl<R: BufRead, W: Write> Console<R, W> {
    pub fn new(alloc: Global, reader: R, out: W) -> Self {
        Console {
            alloc,
            script: Script::new(alloc, reader),
            out,
            kind: None,
            mistake: None,
        }
    }

    fn answer(&mut self, answer: &Result<Told, Trouble>) -> io::Result<()> {
        let line = self.script.number();
        if let (Err(Trouble::Wrong(wrong)), None) = (answer, self.mistake) {
            self.mistake = Some(Mistake {
                line,
                wrong: *wrong,
            });
        }
        write_answer(&mut self.out, line, answer)?;
        self.out.flush()
    }

    // The runs that a line names, answered; nothing where they are not to be had.
    fn named(&mut self, named: Result<Runs, Wrong>) -> io::Result<Option<Runs>> {
        match named {
            Ok(runs) => {
                self.answer(&Ok(Told::Nothing))?;
                Ok(Some(runs))
            }
            Err(wrong) => {
                self.answer(&Err(Trouble::Wrong(wrong)))?;
                Ok(None)
            }
        }
    }

    fn probe<B: Probe>(&mut self, book: &mut Book<B>, probing: Probing) -> io::Result<()> {
        match probing {
            Probing::Steps => match book.bottom().steps() {
                None => self.answer(&Ok(Told::Endless)),
                Some(steps) => self.answer(&Ok(Told::Number(steps))),
            },
            Probing::Poke { at, word } => {
                let poked = book.bottom_mut().poke(at as usize, word);
                match poked {
                    Ok(()) => self.answer(&Ok(Told::Nothing)),
                    Err(refusal) => self.answer(&Err(refusal.into())),
                }
            }
            Probing::Dump => {
                let (live, firm) = book.bottom().words();
                write_dump(&mut self.out, live, firm)?;
                self.out.flush()
            }
        }
    }

    // A cut with a choice for each word of the memory at the bottom.
    fn cut<B: Probe + Settle>(
        &mut self,
        book: &mut Book<B>,
        steps: u64,
        keeps: Keeps,
    ) -> io::Result<()> {
        let length = book.bottom().choices();
        let mix = self.script.mix()?;
        let choice = kept_run(self.alloc, keeps, mix.as_slice(), length)?;
        let answer = book.cut(choice.as_slice(), steps);
        self.answer(&answer)
    }

    // Plays the lines over one memory, up to the line that names another one, whose runs are told; none at the end of the script.
    pub fn over<B: Probe + Settle + Drop>(
        &mut self,
        bottom: B,
    ) -> io::Result<(Desk<B>, Option<Runs>)> {
        let mut desk = Desk::new(bottom, self.kind);
        for _ in 0..u64::MAX {
            match self.script.next()? {
                None => break,
                Some(Err(wrong)) => self.answer(&Err(Trouble::Wrong(wrong)))?,
                Some(Ok(Line::Memory(make))) => {
                    let runs = self.named(make_runs(self.alloc, make))?;
                    if runs.is_some() {
                        return Ok((desk, runs));
                    }
                }
                Some(Ok(Line::Setting(setting))) => {
                    let (set, answer) = desk.set(setting, &mut self.kind);
                    desk = set;
                    self.answer(&answer)?;
                }
                Some(Ok(Line::Probing(probing))) => self.probe(&mut desk.book, probing)?,
                Some(Ok(Line::Cut { steps, keeps })) => self.cut(&mut desk.book, steps, keeps)?,
                Some(Ok(Line::Call(call))) => {
                    let answer = desk.book.ask(call);
                    self.answer(&answer)?;
                }
            }
        }
        Ok((desk, None))
    }

    // Plays the lines before the first memory.
    pub fn before(&mut self) -> io::Result<Option<Runs>> {
        for _ in 0..u64::MAX {
            match self.script.next()? {
                None => break,
                Some(Err(wrong)) => self.answer(&Err(Trouble::Wrong(wrong)))?,
                Some(Ok(Line::Memory(make))) => {
                    let runs = self.named(make_runs(self.alloc, make))?;
                    if runs.is_some() {
                        return Ok(runs);
                    }
                }
                Some(Ok(Line::Setting(Setting::Kind(kind)))) => {
                    self.kind = Some(kind);
                    self.answer(&Ok(Told::Nothing))?;
                }
                Some(Ok(_)) => self.answer(&Err(Trouble::Wrong(Wrong::NoMemory)))?,
            }
        }
        Ok(None)
    }

    // Plays the lines over one memory; tells the runs that are named next, and an image of the words that are shown in the end.
    fn over_to_end<B: Probe + Settle + Drop>(
        &mut self,
        bottom: B,
        to_image: bool,
    ) -> io::Result<(Option<Runs>, Option<Vec<u8>>)> {
        let (mut desk, next) = self.over(bottom)?;
        if !to_image {
            return Ok((next, None));
        }
        Ok((next, Some(desk.book.octets(self.alloc)?)))
    }

    fn over_runs(
        &mut self,
        runs: Runs,
        to_image: bool,
    ) -> io::Result<(Option<Runs>, Option<Vec<u8>>)> {
        match runs {
            Runs::Through { mut run } => self.over_to_end(Through::new(&mut run), to_image),
            Runs::Buffered {
                mut live,
                mut firm,
                steps,
            } => self.over_to_end(Buffered::new(&mut live, &mut firm, steps), to_image),
        }
    }

    // Plays the whole script; tells an image of the words that are shown in the end where it is asked for and there is a memory.
    pub fn play(&mut self, to_image: bool) -> io::Result<Option<Vec<u8>>> {
        let mut named = self.before()?;
        let mut image = None;
        for _ in 0..u64::MAX {
            let Some(runs) = named else {
                break;
            };
            let (next, octets) = self.over_runs(runs, to_image)?;
            named = next;
            image = octets;
        }
        Ok(image)
    }
}
