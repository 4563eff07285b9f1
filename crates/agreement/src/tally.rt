// What the comparison counts, and how it is printed.
use crate::refused::Refused;
use crate::service::Service;
use std::fmt;

// Of a service's requests: how many were tried, how many of these agree, and how many of these are answered and not refused.
#[derive(Clone, Copy, Default)]
pub struct Counts {
    pub tried: usize,
    pub agreed: usize,
    pub answered: usize,
}

// The counts of each service; for each number the requests that both refuse with it; and how many differ, with the first of these by
// service and table.
#[derive(Clone, Copy, Default)]
pub struct Tally {
    pub services: [Counts; 5],
    pub refused: [usize; 33],
    pub differ: usize,
    pub first: [Option<(Service, usize)>; 8],
}

impl Tally {
    // Counts one request to a service, on a table, with the planner's answer and the counter's.
    pub fn count<T: PartialEq + Copy>(
        &mut self,
        service: Service,
        table: usize,
        ours: Result<T, Refused>,
        theirs: Result<T, Refused>,
        same_buffers: bool,
    ) {
        let counts = &mut self.services[service as usize];
        counts.tried = counts.tried.saturating_add(1);
        if !same_buffers || ours != theirs {
            self.one_differs(service, table);
            return;
        }
        counts.agreed = counts.agreed.saturating_add(1);
        match ours {
            Ok(_) => counts.answered = counts.answered.saturating_add(1),
            Err(refused) => self.one_refused(refused),
        }
    }

    fn one_refused(&mut self, by: Refused) {
        if let Some(count) = self.refused.get_mut(by.number) {
            *count = count.saturating_add(1);
        }
    }

    fn one_differs(&mut self, service: Service, table: usize) {
        if let Some(free) = self.first.get_mut(self.differ) {
            *free = Some((service, table));
        }
        self.differ = self.differ.saturating_add(1);
    }

    // How many requests were tried.
    fn total(&self) -> usize {
        self.services
            .iter()
            .map(|counts| counts.tried)
            .fold(0, usize::saturating_add)
    }

    // A line for each service.
    fn fmt_services<W: fmt::Write>(&self, f: &mut fmt::Formatter<W>) -> fmt::Result {
        for (service, counts) in Service::ALL.iter().zip(&self.services) {
            writeln!(f, "{service}: {counts}")?;
        }
        Ok(())
    }

    // A line for each number of a refusal that the services have.
    fn fmt_refusals<W: fmt::Write>(&self, f: &mut fmt::Formatter<W>) -> fmt::Result {
        for (number, count) in self.refused.iter().enumerate() {
            if matches!(number, 11..=18 | 21..=27 | 31..=32) {
                writeln!(f, "refused {number}: {count}")?;
            }
        }
        Ok(())
    }

    // A line for each of the first requests whose answers differ.
    fn fmt_first<W: fmt::Write>(&self, f: &mut fmt::Formatter<W>) -> fmt::Result {
        for (service, table) in self.first.iter().flatten() {
            writeln!(f, "{service}, table {table}")?;
        }
        Ok(())
    }
}

impl fmt::Display for Counts {
    fn fmt<W: fmt::Write>(&self, f: &mut fmt::Formatter<W>) -> fmt::Result {
        write!(
            f,
            "tried {}, agreed {}, answered {}",
            self.tried, self.agreed, self.answered
        )
    }
}

impl fmt::Display for Tally {
    fn fmt<W: fmt::Write>(&self, f: &mut fmt::Formatter<W>) -> fmt::Result {
        self.fmt_services(f)?;
        self.fmt_refusals(f)?;
        if self.differ == 0 {
            writeln!(f, "all {} agree", self.total())
        } else {
            writeln!(f, "{} of {} differ", self.differ, self.total())?;
            self.fmt_first(f)
        }
    }
}
