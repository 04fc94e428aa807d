// What the program's arguments ask for.
ghost use Rattle.std.specs.Prelude.{IsSome};
ghost use Rattle.script.specs.Tasks.{ReadsTask, TaskForm};

// A task of the program; a file is named by the word after it.
#[derive(Clone, Copy)]
pub enum Task {
    // plays the script, or the built-in task where there is none
    Play,
    // cuts the script's last call off after each of its steps, with each row told or with the rows of a step in one
    SweepAll,
    Sweep,
    // plays the script, and writes the words that are shown in the end as an image
    Image,
    // tells what an image holds
    Inspect,
    // tells what opening answers to an image with one word changed
    Damage,
}

// The task that the words after the program's name ask for, if they are of one of the forms.
pub fn task_of(words: &[&str]) -> Option<Task>
    ensures reads { ReadsTask words.now result }
    ensures others { IsSome result → TaskForm words.now }
{
    match *words {
        [] => Some(Task::Play),
        ["sweep"] => Some(Task::Sweep),
        ["sweep", "all"] => Some(Task::SweepAll),
        ["image", _] => Some(Task::Image),
        ["inspect", _] => Some(Task::Inspect),
        ["damage", _] => Some(Task::Damage),
        _ => None,
    }
}
