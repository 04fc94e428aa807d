// The last days of a common year, a leap year and a century that is no leap year, as sent and as taken.
use keys::stamp::Stamp;
use std::io;

pub fn show(rt: &impl Print) -> io::Result<()> {
    println!(rt; "")?;
    println!(rt; "Days sent and taken")?;
    println!(rt; "  sent       taken")?;
    for year in [2023, 2024, 2100] {
        for day in 364..367 {
            show_day(rt, year, day)?;
        }
    }
    Ok(())
}

fn show_day(rt: &impl Print, year: u64, day: u64) -> io::Result<()> {
    match Stamp::new(year, day, 0) {
        Ok(stamp) => {
            let (y, d) = (stamp.year(), stamp.day());
            println!(rt; "  {year}-{day}   {y}-{d}")
        }
        Err(refusal) => println!(rt; "  {year}-{day}   refused {refusal}"),
    }
}
