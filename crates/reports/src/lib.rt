// What the program answers to a page: the bytes that it prints, and what they say of the sheet.

#![tactic(auto)]
