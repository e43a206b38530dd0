//! Plans worked out by hand from the standard's frame lengths (ISO/IEC 11172-3 and 13818-3, 2.4.3.1) less
//! header and side information, plans found by trying every list, and curves of gain.
mod asked;
mod best;
mod checked;
mod drawn;
mod fades;
mod lists;
mod menus;
mod part_splices;
mod parts;
mod rows;
mod seams;
mod splices;
mod stretches;
